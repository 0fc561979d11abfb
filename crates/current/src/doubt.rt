// A number of milliseconds that may have been meant otherwise: as a year, a day or seconds.
use calendar::date::{Date, day_of};
use calendar::text::text_of;
use plaintext::name::say_escaped;
use plaintext::text::say;
use tokens::output::Output;
use tokens::token::{Token, token_of};

#[derive(Clone, Copy)]
enum Doubt {
    Year,
    Day(Date),
    Seconds,
}

// 20250312 as a date, if it is one.
fn date_of_digits(number: u64) -> Option<Date> {
    let date = Date {
        year: number / 10000,
        month: number / 100 % 100,
        day: number % 100,
        hour: 0,
        minute: 0,
        second: 0,
        millisecond: 0,
    };
    if !day_of(date.year, date.month, date.day).is_day {
        return None;
    }
    Some(date)
}

// A number without a sign has as many digits as bytes.
fn doubt_of(text: &[u8]) -> Option<Doubt> {
    let Token::Number {
        is_negative: false,
        magnitude,
    } = token_of(text)
    else {
        return None;
    };
    match text.len() {
        4 => Some(Doubt::Year),
        8 => date_of_digits(magnitude).map(|date| Doubt::Day(date)),
        9 | 10 => Some(Doubt::Seconds),
        _ => None,
    }
}

// As `2025-03-12`.
fn say_day(output: &mut Output, date: Date) {
    let day = text_of(date);
    let bytes = day.bytes;
    say_escaped(output, &bytes, 10);
}

// What is written where that is meant.
fn say_meant(output: &mut Output, text: &[u8], doubt: Doubt) {
    match doubt {
        Doubt::Year => say(
            output,
            b"a year is no moment, write a day of it, as 2025-03-12",
        ),
        Doubt::Day(date) => {
            say(output, b"if a day is meant, write ");
            say_day(output, date);
        }
        Doubt::Seconds => {
            say(output, b"if seconds are meant, write ");
            say_escaped(output, text, text.len());
            say(output, b"000");
        }
    }
}

pub fn say_doubt(output: &mut Output, text: &[u8]) {
    let Some(doubt) = doubt_of(text) else {
        return;
    };
    say(output, b"  ");
    say_escaped(output, text, text.len());
    say(output, b" was read as milliseconds since 1970; ");
    say_meant(output, text, doubt);
    say(output, b"\n");
}
