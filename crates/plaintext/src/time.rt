// Moments, as their dates in UTC.
use crate::name::say_escaped;
use crate::text::say_line;
use calendar::date::date_of;
use calendar::text::text_of;
use records::counters::Time;
use tokens::output::Output;

// As `2025-03-12 10:00:00 UTC`, with `.123` after the seconds where milliseconds are not 0.
pub fn say_date(output: &mut Output, time: Time) {
    let dated = date_of(time);
    let text = text_of(dated.date);
    let bytes = text.bytes;
    let len = if dated.is_dated { text.len } else { 0 };
    let ends = b"no date between the years 1 and 9999\n UTC";
    say_escaped(output, &bytes, len);
    say_line(output, ends, dated.is_dated as usize);
}
