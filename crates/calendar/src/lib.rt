// UTC dates and milliseconds since 1970, by the Gregorian calendar carried back to the year 1: the date of a time, and the time of a date.
// Refused, by a flag: a time outside the years 1 to 9999, a date that the calendar does not have, and a text that is no moment.
// The calendar is written in specs/Calendar.antt.
#![tactic(auto)]

mod clock;
pub mod date;
mod day;
mod shift;
pub mod text;
