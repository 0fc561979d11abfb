// The refs: those of the file in the order of their names, or `main` where it has none.
ghost use Rattle.std.specs.Prelude.{◌≡◌};
ghost use Rattle.rules.specs.Names.{main_name};
ghost use Rattle.rules.specs.WellFormed.{ref_below};
ghost use Rattle.rules.specs.Layout.{read_refs, laid_name, laid_ref, laid_refs};
ghost use Rattle.tables.specs.Laid.{LaidRefs};
ghost use Rattle.json_store.specs.Made.{each};
ghost use Rattle.file_rule.specs.Import.{sorted, main_at};
ghost use Rattle.file_records.specs.Decoded.{count_at, item_at, ref_at, current_in, refs_in};
ghost use Rattle.file_records.specs.Current.{main_ref};

use crate::current_snapshot::current;
use crate::offsets;
use crate::order::name_order;
use crate::record::{BRANCH, ref_at};
use crate::slots::fill;
use crate::value::{Cells, count_of, is_there};
use records::capacities::{NAME, REFS};
use records::counters::SnapshotId;
use records::reference::{NamedRef, Refs, SnapshotReference};
use records::text::Name;

fn file_refs(bytes: &[u8], cells: &Cells) -> Refs
    ensures { result ≡ laid_refs (each (λ i. ref_at bytes.now cells.now (item_at 12 8466 i)) (count_at cells.now 16 8466)) }
{
    let count = count_of(cells, offsets::REFS, REFS);
    let mut refs = Refs::blank();
    fill(&mut refs.items, count, |i| {
        ref_at(bytes, cells, offsets::REFS + 1 + i * offsets::REF)
    });
    refs.count = count;
    refs
}

fn arranged(t: Refs) -> Refs
    requires { LaidRefs t }
    ensures { result ≡ laid_refs (sorted ref_below (read_refs t)) }
{
    let order = name_order(t);
    let mut refs = Refs::blank();
    fill(&mut refs.items, t.count, |i| t.items[order.items[i]]);
    refs.count = t.count;
    refs
}

fn main_name() -> Name
    ensures { result ≡ laid_name main_name }
{
    let mut bytes = [0u8; NAME];
    bytes[..4].copy_from_slice(b"main");
    Name { bytes, len: 4 }
}

// `main`, a plain branch.
fn main_ref(id: SnapshotId) -> NamedRef
    ensures { result ≡ laid_ref (main_ref id.0) }
{
    let mut reference = SnapshotReference::blank();
    reference.snapshot_id = id;
    reference.kind = BRANCH;
    NamedRef {
        name: main_name(),
        reference,
        owner: 1,
    }
}

// That at the current snapshot.
fn main_refs(bytes: &[u8], cells: &Cells) -> Refs
    ensures { result ≡ laid_refs (main_at (current_in bytes.now cells.now)) }
{
    let mut refs = Refs::blank();
    if let Some(id) = current(bytes, cells) {
        refs.items[0] = main_ref(id);
        refs.count = 1;
    }
    refs
}

pub fn refs(bytes: &[u8], cells: &Cells) -> Refs
    ensures { result ≡ laid_refs (sorted ref_below (refs_in bytes.now cells.now)) }
{
    if is_there(cells, offsets::REFS) {
        return arranged(file_refs(bytes, cells));
    }
    main_refs(bytes, cells)
}
