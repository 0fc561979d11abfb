// Refs: a name, and what it refers to.
use crate::text::{read_name, read_slots};
use records::capacities::REFS;
use records::counters::{Age, MinSnapshots, SnapshotId};
use records::reference::{NamedRef, Refs, SnapshotReference};
use records::run::FIRST_OFFICE;
use tokens::field::{read_count, read_flag, read_i32, read_i64, read_u8};
use tokens::input::Input;
use tokens::wanted::Wanted;

// What stands after the name.
pub fn read_reference(input: &mut Input) -> SnapshotReference {
    let snapshot_id = read_i64(input);
    let kind = read_u8(input);
    let has_min = read_flag(input);
    let min_snapshots = read_i32(input);
    let has_age = read_flag(input);
    let max_snapshot_age_ms = read_i64(input);
    let has_ref_age = read_flag(input);
    let max_ref_age_ms = read_i64(input);
    SnapshotReference {
        snapshot_id: SnapshotId(snapshot_id),
        kind,
        has_min,
        min_snapshots_to_keep: MinSnapshots(min_snapshots),
        has_age,
        max_snapshot_age_ms: Age(max_snapshot_age_ms),
        has_ref_age,
        max_ref_age_ms: Age(max_ref_age_ms),
    }
}

// Owners stand elsewhere: here every ref is the first office's.
fn read_ref(input: &mut Input) -> NamedRef {
    let name = read_name(input);
    let reference = read_reference(input);
    NamedRef {
        name,
        reference,
        owner: FIRST_OFFICE,
    }
}

pub fn read_refs(input: &mut Input) -> Refs {
    let mut table = Refs::blank();
    let count = read_count(input);
    for i in 0..count {
        if !input.is_good() {
            break;
        }
        let named = read_ref(input);
        if i < REFS {
            table.items[i] = named;
        }
    }
    table.count = count;
    table
}

fn with_owners(mut table: Refs, owners: [u8; REFS]) -> Refs {
    for (named, &owner) in table.items.iter_mut().zip(&owners) {
        named.owner = owner;
    }
    table
}

// The refs with their owners, of which there are as many: another count spoils the input. A slot without a ref has no owner.
pub fn read_owners(table: Refs, input: &mut Input) -> Refs {
    let held = table.count;
    let count = read_count(input);
    if count != held {
        input.spoil(Wanted::Owners(held as u64));
    }
    let mut owners = [0u8; REFS];
    read_slots(input, &mut owners, count);
    with_owners(table, owners)
}
