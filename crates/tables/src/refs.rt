// The table of refs.
ghost use Rattle.std.specs.Prelude.{◌≡◌, ◌≤◌, ◌<◌, true, false, not, ◌∷◌, ◌++◌, take, drop};
ghost use Rattle.std.specs.Int.Signed.{lt_z};
ghost use Rattle.rules.specs.Words.{put as putBy, any, keep, ascending, is_in};
ghost use Rattle.rules.specs.Names.{name_below};
ghost use Rattle.rules.specs.WellFormed.{ref_below};
ghost use Rattle.rules.specs.RefUpdates.{has_name};
ghost use Rattle.rules.specs.Layout.{read_name, read_ref, read_refs, laid_refs};
ghost use Rattle.search.specs.Places.{index_of};
ghost use Rattle.tables.specs.Laid.{LaidName, LaidRef, LaidRefsPart, LaidRefs, owned_ref};

use crate::ids::is_held;
use crate::names::name_is_below;
use crate::runs::{insert, keep_into};
use equality::text::same_name;
use records::part::RefsPart;
use records::reference::{NamedRef, Refs};
use records::text::Name;

// Where the name stands; the count where it is not held.
pub fn find(t: Refs, name: Name) -> usize
    requires laid_refs { LaidRefs t }
    requires laid_name { LaidName name }
    ensures { result ≡ index_of (has_name (read_name name)) (read_refs t) }
{
    for (i, held) in t.items[..t.count].iter().enumerate() {
        if same_name(held.name, name) {
            return i;
        }
    }
    t.count
}

fn place(t: Refs, name: Name) -> usize
    requires laid_refs { LaidRefs t }
    requires laid_name { LaidName name }
    ensures { result ≡ index_of (λ x. not (name_below x.name (read_name name))) (read_refs t) }
{
    for (i, held) in t.items[..t.count].iter().enumerate() {
        if !name_is_below(held.name, name) {
            return i;
        }
    }
    t.count
}

// The ref in its place. It takes the place of one with its name, and has that one's owner; another one is the office's.
pub fn put(t: Refs, x: RefsPart, office: u8) -> Refs
    requires laid_refs { LaidRefs t }
    requires laid_refs_part { LaidRefsPart x }
    requires count_bound { any (has_name (read_name x.name)) (read_refs t) ≡ false → t.count < 16 }
    requires t_value { ascending ref_below (read_refs t) ≡ true }
    ensures { result ≡ laid_refs (putBy ref_below (owned_ref office x (read_refs t)) (read_refs t)) }
{
    let at = place(t, x.name);
    let mut changed = t;
    if at < t.count && same_name(t.items[at].name, x.name) {
        changed.items[at] = NamedRef {
            name: x.name,
            reference: x.reference,
            owner: t.items[at].owner,
        };
        return changed;
    }
    let made = NamedRef {
        name: x.name,
        reference: x.reference,
        owner: office,
    };
    insert(&mut changed.items, t.count, at, made);
    changed.count += 1;
    changed
}

pub fn without(t: Refs, name: Name) -> Refs
    requires laid_refs { LaidRefs t }
    requires laid_name { LaidName name }
    ensures { result ≡ laid_refs (keep (λ x. not (has_name (read_name name) x)) (read_refs t)) }
{
    let mut rest = Refs::blank();
    rest.count = keep_into(
        &t.items[..t.count],
        &mut rest.items,
        |x| !same_name(x.name, name),
    );
    rest
}

// The refs to held snapshots, whose ids are lent in table order.
pub fn pointing(t: Refs, ids: &[i64]) -> Refs
    requires laid_refs { LaidRefs t }
    requires ids_value { ascending lt_z ids.now ≡ true }
    ensures { result ≡ laid_refs (keep (λ x. is_in ids.now x.reference.snapshot) (read_refs t)) }
{
    let mut kept = Refs::blank();
    kept.count = keep_into(&t.items[..t.count], &mut kept.items, |x| {
        is_held(ids, x.reference.snapshot_id)
    });
    kept
}
