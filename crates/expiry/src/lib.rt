// Expiry by retention: the list of updates by which what a policy does not keep goes, and why each snapshot that it keeps stays.
// Refused with 1, then 39, then 3, then 24; then the list is empty, and there are no reasons.
// Document 02 decides, request (viii), as the crate `retention` writes it in Retention, Expiry and Reasons.
#![tactic(auto)]

mod kept;
mod list;
pub mod policy;
mod walks;

ghost use Rattle.std.specs.Prelude.{◌≡◌, []};
ghost use Rattle.expiry.specs.Answer.{laid_expiry, expiry_answer, reasons_answer};

use crate::kept::findings;
use crate::list::list_of;
use crate::policy::{Policy, Reasons, start_number};
use formed::metadata::is_formed;
use records::metadata::TableMetadata;
use records::replies::{ACCEPTED, MET_TWICE};
use records::update::UpdateList;

// The number is 0, or that of the refusal.
// Kept: the contract of `expiring_updates` (`expiry_answer`) gives the number and the list.
#[derive(Clone, Copy)]
pub struct Expiry {
    pub number: u8,
    pub updates: UpdateList,
}

fn refused(number: u8) -> Expiry
    ensures { result ≡ laid_expiry (record { number = number; updates = [] }) }
{
    let updates = UpdateList::blank();
    Expiry { number, updates }
}

// The updates that remove the refs that go, in table order, and the snapshots that go, ascending, sixteen by an update.
pub fn expiring_updates(metadata: TableMetadata, policy: Policy) -> Expiry
    ensures { result ≡ expiry_answer metadata policy }
{
    let refs = metadata.refs;
    let snapshots = metadata.snapshots;
    let log = metadata.snapshot_log;
    let number = start_number(is_formed(metadata), policy);
    if number != ACCEPTED {
        return refused(number);
    }
    let found = findings(policy, refs, snapshots, log);
    if found.cyclic {
        return refused(MET_TWICE);
    }
    let updates = list_of(refs, snapshots, found.reasons);
    Expiry {
        number: ACCEPTED,
        updates,
    }
}

// Of each ref whether it goes, and of each held snapshot what it stays for. There are none where no list is made.
// Kept: what both functions ask first stands in both, since one function for it made each of them slower by a quarter.
pub fn reasons(metadata: TableMetadata, policy: Policy) -> Reasons
    ensures { result ≡ reasons_answer metadata policy }
{
    let refs = metadata.refs;
    let snapshots = metadata.snapshots;
    let log = metadata.snapshot_log;
    let number = start_number(is_formed(metadata), policy);
    if number != ACCEPTED {
        return Reasons::blank();
    }
    let found = findings(policy, refs, snapshots, log);
    if found.cyclic {
        return Reasons::blank();
    }
    found.reasons
}
