// Times in milliseconds since 1970, and for each its date and the time that is read from that date: a line each, for a comparison with another
// calendar. A time that is not within the years 1 to 9999 gets `none`.
use calendar::date::date_of;
use calendar::text::{text_of, time_of_text};
use records::counters::Time;
use slot_bounds::lent;
use tokens::field::signed_of;
use tokens::input::Input;
use tokens::number::put_i64;
use tokens::output::Output;
use tokens::token::{Token, read_token};
use tokens::wanted::Wanted;

fn put_text(output: &mut Output, text: &[u8]) {
    if text.len() < 24 {
        output.make_room();
        output.append(text);
        output.push(b' ');
    }
}

fn put_answer(output: &mut Output, time: i64) {
    let dated = date_of(Time(time));
    if dated.is_dated {
        let text = text_of(dated.date);
        let bytes = text.bytes;
        let slots: &[u8] = &bytes;
        let len = lent(slots, text.len);
        put_text(output, &slots[..len]);
        let timed = time_of_text(&slots[..len]);
        put_i64(output, timed.time.0);
    } else {
        put_text(output, b"none");
    }
    output.end_line();
}

// One time; whether there may be another. An input has a time.
pub fn next(input: &mut Input, output: &mut Output) -> bool {
    let token = read_token(input);
    if input.is_good() && token == Token::Blank && !input.is_first() {
        return false;
    }
    let Some(time) = signed_of(token) else {
        input.spoil(Wanted::Signed(1 << 63));
        return false;
    };
    put_answer(output, time);
    true
}
