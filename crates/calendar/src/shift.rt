// Times counted from 0001-01-01, so that they are not below 0.
ghost use Rattle.std.specs.Prelude.{◌≡◌, ◌<◌, pos, ◌-ℤ◌};
ghost use Rattle.calendar.specs.Answers.{SinceYearOne};

use records::counters::Time;

// From 0001-01-01 to 1970-01-01, in milliseconds.
const EPOCH: i64 = 62135596800000;

// The first millisecond of 0001-01-01.
const FIRST: i64 = -62135596800000;

// The last millisecond of 9999-12-31.
const LAST: i64 = 253402300799999;

// The milliseconds of the years 1 to 9999.
pub const ALL: u64 = 315537897600000;

// The milliseconds since 0001-01-01; 0 if the time is not within the years 1 to 9999.
#[derive(Clone, Copy)]
pub struct Since {
    pub is_within: bool,
    pub milliseconds: u64,
}

pub fn since_year_one(time: Time) -> Since
    ensures { SinceYearOne time.0 result }
{
    let time = time.0;
    if time < FIRST {
        return Since {
            is_within: false,
            milliseconds: 0,
        };
    }
    if time > LAST {
        return Since {
            is_within: false,
            milliseconds: 0,
        };
    }
    Since {
        is_within: true,
        milliseconds: (time + EPOCH) as u64,
    }
}

pub fn since_epoch(milliseconds: u64) -> Time
    requires { milliseconds < 315537897600000 }
    ensures { result.0 ≡ pos milliseconds -ℤ pos 62135596800000 }
{
    Time(milliseconds as i64 - EPOCH)
}
