// Partition specs: adding, choosing the default one, removing.
// Document 02, request (ix), as the crate `rules` writes it in SpecUpdates.
#![tactic(auto)]

use builder::decision::Decision;
use records::partition::PartitionSpecs;

pub mod addition;
pub mod choice;
pub mod family;
pub mod removal;

// The decision, and the table after the update, which counts where the number is 0.
#[derive(Clone, Copy)]
pub struct SpecsAnswer {
    pub decision: Decision,
    pub table: PartitionSpecs,
}
