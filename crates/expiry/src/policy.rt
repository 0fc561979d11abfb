// A retention policy, and what it finds.
ghost use Rattle.std.specs.Prelude.{◌≡◌, not, [], ◌∷◌};
ghost use Rattle.rules.specs.Words.{or_else, first_of};
ghost use Rattle.rules.specs.Replies.{start_not_formed, update_not_formed, office_unknown};
ghost use Rattle.rules.specs.Offices.{is_office};
ghost use Rattle.rules.specs.Layout.{given};
ghost use Rattle.retention.specs.Expiry.{policy_formed};
ghost use Rattle.expiry.specs.Answer.{read_policy, no_reason, no_reasons};

use formed::bounds::{age_formed, min_formed};
use records::capacities::{REFS, SNAPSHOTS};
use records::counters::{Age, MinSnapshots, Time};
use records::replies::{ACCEPTED, OFFICE_UNKNOWN, START_NOT_FORMED, UPDATE_NOT_FORMED};
use records::run::{FIRST_OFFICE, SECOND_OFFICE};

// A clock reading, the three numbers of a ref that has none of its own, and the office whose list is made.
#[derive(Clone, Copy)]
pub struct Policy {
    pub clock_ms: Time,
    pub min_snapshots: MinSnapshots,
    pub max_snapshot_age_ms: Age,
    pub max_ref_age_ms: Age,
    pub office: u8,
}

// Why a snapshot stays: nothing keeps it, so that it goes; a ref names it, or it is within a branch's count, or within its age; a ref of the other office
// names or reaches it; the snapshot log names it.
// Kept: the contract of `reasons` (`reasons_answer`), and `why_at` and `why_by` of the crate `retention`, are stated over these numbers.
pub const NOTHING: u8 = 0;

pub const NAMED: u8 = 1;

pub const WITHIN_COUNT: u8 = 2;

pub const WITHIN_AGE: u8 = 3;

pub const OTHERS_NEED: u8 = 4;

pub const LOG_NAMES: u8 = 5;

// Why, and of 1 to 4 the place of the first ref that keeps it; else the place is 0.
#[derive(Clone, Copy)]
pub struct Reason {
    pub why: u8,
    pub by: usize,
}

// In the order of the tables, and blank after them.
#[derive(Clone, Copy)]
pub struct Reasons {
    pub goes: [bool; REFS],
    pub stays: [Reason; SNAPSHOTS],
}

impl Reason {
    pub fn blank() -> Reason
        ensures { result ≡ no_reason }
    {
        Reason {
            why: NOTHING,
            by: 0,
        }
    }
}

impl Reasons {
    pub fn blank() -> Reasons
        ensures { result ≡ no_reasons }
    {
        Reasons {
            goes: [false; REFS],
            stays: [Reason::blank(); SNAPSHOTS],
        }
    }
}

// Kept: the contract of `start_number` gives the number of the refusal.
// 1, then 39, then 3. Whether the metadata is well formed is handed over, and not the metadata, which would be copied.
pub fn start_number(is_formed: bool, policy: Policy) -> u8
    ensures { result ≡ first_of ((not is_formed, start_not_formed) ∷ (not (is_office policy.office), office_unknown) ∷ (not (policy_formed (read_policy policy)), update_not_formed) ∷ []) }
{
    if !is_formed {
        return START_NOT_FORMED;
    }
    if policy.office != FIRST_OFFICE && policy.office != SECOND_OFFICE {
        return OFFICE_UNKNOWN;
    }
    if !min_formed(true, policy.min_snapshots)
        || !age_formed(true, policy.max_snapshot_age_ms)
        || !age_formed(true, policy.max_ref_age_ms)
    {
        return UPDATE_NOT_FORMED;
    }
    ACCEPTED
}

// A ref's own number stands before the policy's.
// Kept: both are public, and one function for both types would be called by two that have its only line.
pub fn own_count(has: bool, own: MinSnapshots, other: MinSnapshots) -> MinSnapshots
    ensures { result.0 ≡ or_else (given has own.0) other.0 }
{
    if has {
        return own;
    }
    other
}

pub fn own_age(has: bool, own: Age, other: Age) -> Age
    ensures { result.0 ≡ or_else (given has own.0) other.0 }
{
    if has {
        return own;
    }
    other
}
