// A date with its time of day, in UTC, and the milliseconds since 1970 that it stands for.
ghost use Rattle.std.specs.Prelude.{◌≡◌, true, ◌<◌, ◌≤◌};
ghost use Rattle.calendar.specs.Calendar.{is_date, is_day, is_from, days_before, midnight, milliseconds as since};
ghost use Rattle.calendar.specs.Answers.{DateOf, day_of, timed};

use crate::clock::{is_clock, since_midnight};
use crate::day::{days_before_month, days_before_year, is_leap, month_at, month_length, year_at};
use crate::shift::{since_epoch, since_year_one};
use records::counters::Time;

#[derive(Clone, Copy)]
pub struct Date {
    pub year: u64,
    pub month: u64,
    pub day: u64,
    pub hour: u64,
    pub minute: u64,
    pub second: u64,
    pub millisecond: u64,
}

// The date of a time; zeros if the time is not within the years 1 to 9999.
#[derive(Clone, Copy)]
pub struct Dated {
    pub is_dated: bool,
    pub date: Date,
}

// The time of a date; 0 if the calendar does not have the date.
#[derive(Clone, Copy)]
pub struct Timed {
    pub is_timed: bool,
    pub time: Time,
}

// A day, from its first millisecond to its last; zeros if the calendar does not have it.
#[derive(Clone, Copy)]
pub struct Day {
    pub is_day: bool,
    pub first: Time,
    pub last: Time,
}

impl Date {
    pub fn blank() -> Date
        ensures { result ≡ midnight 0 0 0 }
    {
        Date {
            year: 0,
            month: 0,
            day: 0,
            hour: 0,
            minute: 0,
            second: 0,
            millisecond: 0,
        }
    }
}

fn is_from(least: u64, most: u64, number: u64) -> bool
    ensures { result ≡ is_from least most number }
{
    least <= number && number <= most
}

#[tactic(auto, using(crate::proofs::Dates::from), unfolding(crate::specs::Calendar::is_day))]
fn is_day(year: u64, month: u64, day: u64) -> bool
    ensures { result ≡ is_day year month day }
{
    is_from(1, 9999, year)
        && is_from(1, 12, month)
        && is_from(1, month_length(is_leap(year), month), day)
}

#[tactic(auto, unfolding(crate::specs::Calendar::is_date))]
fn is_date(date: Date) -> bool
    ensures { result ≡ is_date date }
{
    is_day(date.year, date.month, date.day)
        && is_clock(date.hour, date.minute, date.second, date.millisecond)
}

fn days_before(year: u64, month: u64, day: u64) -> u64
    requires { is_day year month day ≡ true }
    ensures { (result ≡ days_before year month day) × (result < 3652059) }
{
    days_before_year(year) + days_before_month(is_leap(year), month) + (day - 1)
}

const DAY: u64 = 86400000;

pub fn time_of(date: Date) -> Timed
    ensures { result ≡ timed date }
{
    if !is_date(date) {
        return Timed {
            is_timed: false,
            time: Time(0),
        };
    }
    let days = days_before(date.year, date.month, date.day);
    let clock = since_midnight(date.hour, date.minute, date.second, date.millisecond);
    let time = since_epoch(days * DAY + clock);
    Timed {
        is_timed: true,
        time,
    }
}

pub fn day_of(year: u64, month: u64, day: u64) -> Day
    ensures { result ≡ day_of year month day }
{
    let first = time_of(Date {
        year,
        month,
        day,
        hour: 0,
        minute: 0,
        second: 0,
        millisecond: 0,
    });
    let last = time_of(Date {
        year,
        month,
        day,
        hour: 23,
        minute: 59,
        second: 59,
        millisecond: 999,
    });
    let begins = first.time;
    let ends = last.time;
    Day {
        is_day: first.is_timed,
        first: begins,
        last: ends,
    }
}

// The date so many milliseconds after 0001-01-01.
fn date_after(milliseconds: u64) -> Date
    requires { milliseconds < 315537897600000 }
    ensures { (is_date result ≡ true) × (since result ≡ milliseconds) }
{
    let days = milliseconds / DAY;
    let clock = milliseconds % DAY;
    let year = year_at(days);
    let is_leap = is_leap(year);
    let day_of_year = days - days_before_year(year);
    let month = month_at(is_leap, day_of_year);
    let minutes = clock / 60000;
    let rest = clock % 60000;
    Date {
        year,
        month,
        day: day_of_year - days_before_month(is_leap, month) + 1,
        hour: minutes / 60,
        minute: minutes % 60,
        second: rest / 1000,
        millisecond: rest % 1000,
    }
}

pub fn date_of(time: Time) -> Dated
    ensures { DateOf time.0 result }
{
    let since = since_year_one(time);
    if !since.is_within {
        let date = Date::blank();
        return Dated {
            is_dated: false,
            date,
        };
    }
    let date = date_after(since.milliseconds);
    Dated {
        is_dated: true,
        date,
    }
}
