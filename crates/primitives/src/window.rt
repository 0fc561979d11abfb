// The time window.
ghost use Rattle.std.specs.Prelude.{◌≡◌};
ghost use Rattle.rules.specs.Window.{is_before};

use records::counters::{Age, Time};

// Whether the time is more than the span before the last one. A sum past either end of the times is before every last one where the span is
// below 0, and before none where it is not.
#[tactic(auto, unfolding(rules::specs::Window::is_before))]
pub fn is_before(span: Age, time: Time, last: Time) -> bool
    ensures { result ≡ is_before span.0 time.0 last.0 }
{
    match time.0.checked_add(span.0) {
        Some(sum) => sum < last.0,
        None => span.0 < 0,
    }
}
