// Days, counted from 0001-01-01 as day 0: leap years, the days before a year and before a month, and the year and the month of a day.
ghost use Rattle.std.specs.Prelude.{◌≡◌, ◌+◌, ◌<◌, ◌≤◌};
ghost use Rattle.calendar.specs.Calendar.{days_before_month, days_before_year, is_leap, month_length};
ghost use Rattle.calendar.specs.Answers.{MonthAt, YearAt};

#[tactic(auto, unfolding(crate::specs::Calendar::is_leap))]
pub fn is_leap(year: u64) -> bool
    ensures { result ≡ is_leap year }
{
    year % 4 == 0 && (year % 100 != 0 || year % 400 == 0)
}

pub fn days_before_year(year: u64) -> u64
    requires { (1 ≤ year) × (year ≤ 10000) }
    ensures { result ≡ days_before_year year }
{
    let years = year - 1;
    365 * years + years / 4 - years / 100 + years / 400
}

// By the number of the month; there is no month 0.
const LENGTHS: [u64; 13] = [0, 31, 28, 31, 30, 31, 30, 31, 31, 30, 31, 30, 31];

pub fn month_length(is_leap: bool, month: u64) -> u64
    requires { month ≤ 12 }
    ensures { result ≡ month_length is_leap month }
{
    if month == 2 {
        if is_leap {
            return 29;
        }
    }
    LENGTHS[month as usize]
}

#[tactic(auto, using(crate::proofs::Days::month_most, crate::proofs::Days::month_next), unfolding(crate::specs::Calendar::days_before_month))]
pub fn days_before_month(is_leap: bool, month: u64) -> u64
    requires { month ≤ 13 }
    ensures { result ≡ days_before_month is_leap month }
{
    let mut days: u64 = 0;
    for m in 0..month {
        days += month_length(is_leap, m);
    }
    days
}

// The last year that begins by this day. No year is longer than 366 days, so the search starts close below.
pub fn year_at(day: u64) -> u64
    requires { day < 3652059 }
    ensures { YearAt day result }
{
    let mut year = day / 366 + 1;
    while days_before_year(year + 1) <= day {
        year += 1;
    }
    year
}

// The last month that begins by this day of the year, of which January the first is day 0.
pub fn month_at(is_leap: bool, day: u64) -> u64
    requires { day < days_before_month is_leap 13 }
    ensures { MonthAt is_leap day result }
{
    let mut month: u64 = 1;
    while days_before_month(is_leap, month + 1) <= day {
        month += 1;
    }
    month
}
