// The slots of a list, with commas between them.
ghost use Rattle.std.specs.Prelude.{List, ℕ};
ghost use Rattle.rules.specs.Layout.{counted};
ghost use Rattle.file_rule.specs.Written.{items};
ghost use Rattle.file_text.specs.Puts.{Puts};

use crate::bytes::put_if;

// So many slots, each put by the closure; one that is counted and not there is blank.
pub fn put_items<T: Copy, F: Fn(&mut [u8], usize, T) -> usize>(
    buffer: &mut [u8],
    at: usize,
    slots: &[T],
    count: usize,
    blank: T,
    put_item: F,
) -> usize
    ghost text: { T → List ℕ }
    requires callable { F.IsAlwaysCallable put_item }
    requires puts { (b : _) (p : _) (x : T) (r : _) (b' : _) → F.post put_item b p x r b' → Puts b.now p (text x) r b'.now }
    ensures { Puts buffer.old at (items text (counted blank slots.now count)) result buffer.new }
{
    let mut to = at;
    for i in 0..count {
        let item = *slots.get(i).unwrap_or(&blank);
        to = put_if(buffer, to, i > 0, b",");
        to = put_item(buffer, to, item);
    }
    to
}
