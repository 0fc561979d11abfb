// The time of day.
ghost use Rattle.std.specs.Prelude.{◌≡◌, true, ◌<◌};
ghost use Rattle.calendar.specs.Calendar.{clock, is_clock};

#[tactic(auto, unfolding(crate::specs::Calendar::is_clock))]
pub fn is_clock(hour: u64, minute: u64, second: u64, millisecond: u64) -> bool
    ensures { result ≡ is_clock hour minute second millisecond }
{
    hour < 24 && minute < 60 && second < 60 && millisecond < 1000
}

pub fn since_midnight(hour: u64, minute: u64, second: u64, millisecond: u64) -> u64
    requires { is_clock hour minute second millisecond ≡ true }
    ensures { (result ≡ clock hour minute second millisecond) × (result < 86400000) }
{
    ((hour * 60 + minute) * 60 + second) * 1000 + millisecond
}
