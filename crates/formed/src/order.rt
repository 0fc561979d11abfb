// Tables in the order of their keys: each element is below the next. The order of numbers is asked of the keys alone, gathered where the slots are looked at,
// so that a table is handed over once.
ghost use Rattle.std.specs.Prelude.{◌≡◌, true, ◌≤◌, take};
ghost use Rattle.std.specs.Int.Signed.{lt_z};
ghost use Rattle.rules.specs.Words.{ascending, is_in};
ghost use Rattle.rules.specs.Capacities.{snapshot_room};
ghost use Rattle.rules.specs.WellFormed.{ref_below};
ghost use Rattle.rules.specs.Layout.{read_refs};
ghost use Rattle.tables.specs.Laid.{LaidRefs};
ghost use Rattle.formed.specs.Found.{Told};

use records::capacities::SNAPSHOTS;
use records::reference::Refs;
use search::{Key, is_in};
use tables::names::name_is_below;

// The keys of a table in its order, and zeros up to as many as the largest table has. It is `filled` if its slots passed, and `formed` if its keys ascend too.
// Kept: `Found`, the contract of the public functions that make it, names the four fields, and the crate `faults` reads them.
#[derive(Clone, Copy)]
pub struct Keys {
    pub ids: [i64; SNAPSHOTS],
    pub count: usize,
    pub filled: bool,
    pub formed: bool,
}

fn ascends(ids: &[i64]) -> bool
    ensures { result ≡ ascending lt_z ids.now }
{
    let mut ok = true;
    for i in 1..ids.len() {
        ok &= ids[i - 1] < ids[i];
    }
    ok
}

// The order is asked of a table whose slots passed.
pub fn told(filled: bool, count: usize, ids: [i64; SNAPSHOTS]) -> Keys
    requires { filled ≡ true → count ≤ snapshot_room }
    ensures { Told filled count ids result }
{
    if filled {
        let formed = ascends(&ids[..count]);
        return Keys {
            ids,
            count,
            filled: true,
            formed,
        };
    }
    Keys {
        ids,
        count: 0,
        filled: false,
        formed: false,
    }
}

pub fn holds(k: Keys, key: Key) -> bool
    requires { k.count ≤ snapshot_room }
    ensures { result ≡ is_in (take k.count k.ids) key.0 }
{
    is_in(&k.ids[..k.count], key)
}

pub fn refs_ascend(t: Refs) -> bool
    requires { LaidRefs t }
    ensures { result ≡ ascending ref_below (read_refs t) }
{
    let mut ok = true;
    for i in 1..t.count {
        ok &= name_is_below(t.items[i - 1].name, t.items[i].name);
    }
    ok
}
