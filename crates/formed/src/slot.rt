// The slots of an array, of which so many count: the counted ones hold a record as their place asks, and the rest the blank.
ghost use Rattle.std.specs.Prelude.{◌≡◌, ◌≤◌, Bool, ℤ, cond, ◌&&◌, leb, map, take, drop};
ghost use Rattle.rules.specs.Words.{all, each_pair};
ghost use Rattle.rules.specs.Blanks.{tidy_slots};
ghost use Rattle.rules.specs.Capacities.{snapshot_room};
ghost use Rattle.formed.specs.Found.{Told};

use crate::order::{Keys, told};
use records::capacities::SNAPSHOTS;

// What fills a slot, used or not.
pub trait Slot {
    ghost used: { Self → Bool };

    ghost blank: { Self → Bool };

    fn fits(&self, is_used: bool) -> bool
        ensures { result ≡ cond is_used (used self.now) (blank self.now) };
}

// What fills a slot of a table with keys.
pub trait Keyed {
    ghost key_of: { Self → ℤ };

    fn key(&self) -> i64
        ensures { result ≡ key_of self.now };
}

// What keeps its bounds, or does not.
pub trait Formed {
    ghost formed: { Self → Bool };

    fn is_formed(&self) -> bool
        ensures { result ≡ formed self.now };
}

// What must differ from another of its kind.
pub trait Apart {
    ghost apart: { Self → Self → Bool };

    fn is_apart(&self, other: &Self) -> bool
        ensures { result ≡ apart self.now other.now };
}

// All slots are looked at, without a stop: such a scan is compiled to wide steps.
pub fn slots_fit<T: Slot, const N: usize>(items: &[T; N], count: usize) -> bool
    ensures { result ≡ tidy_slots N T.used T.blank items.now count }
{
    let mut ok = true;
    for (i, x) in items.iter().enumerate() {
        ok &= x.fits(i < count);
    }
    ok
}

// The same, no more than there is room for, and the keys gathered on the way: a table is looked at once.
pub fn keys<T: Slot + Keyed, const N: usize>(items: &[T; N], count: usize) -> Keys
    requires { N ≤ snapshot_room }
    ensures { Told (leb count N && tidy_slots N T.used T.blank items.now count) count (map T.key_of items.now) result }
{
    let mut ids = [0; SNAPSHOTS];
    let mut filled = count <= N;
    for (i, x) in items.iter().enumerate() {
        filled &= x.fits(i < count);
        ids[i] = x.key();
    }
    told(filled, count, ids)
}

// Every element from a place on is the blank. All are looked at, without a stop.
pub fn blank_from<T: PartialEq + Copy>(items: &[T], from: usize, blank: T) -> bool
    ensures { result ≡ all (λ x. T.eq x blank) (drop from items.now) }
{
    let mut ok = true;
    for x in &items[from.min(items.len())..] {
        ok &= *x == blank;
    }
    ok
}

// No more count than there is room for, and each of them keeps its bounds.
pub fn counted_formed<T: Formed, const N: usize>(items: &[T; N], count: usize) -> bool
    ensures { result ≡ (leb count N && all T.formed (take count items.now)) }
{
    if count > N {
        return false;
    }
    for x in &items[..count] {
        if !x.is_formed() {
            return false;
        }
    }
    true
}

// All are looked at, without a stop: leaving at the first took a tenth longer for full schemas.
fn apart_from_all<T: Apart>(x: &T, others: &[T]) -> bool
    ensures { result ≡ all (T.apart x.now) others.now }
{
    let mut ok = true;
    for y in others {
        ok &= x.is_apart(y);
    }
    ok
}

// Each two elements are apart.
pub fn each_apart<T: Apart>(items: &[T]) -> bool
    ensures { result ≡ each_pair T.apart items.now }
{
    for (i, x) in items.iter().enumerate() {
        if !apart_from_all(x, &items[i + 1..]) {
            return false;
        }
    }
    true
}
