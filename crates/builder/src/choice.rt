// What the updates of schemas and of sort orders share, on the keys of their tables: choosing an id, where -1 stands for the last added, and the
// id that an added one gets.
// Document 01, "Rules for each update", as the crate `rules` writes it in SchemaUpdates.
ghost use Rattle.std.specs.Prelude.{◌≡◌};
ghost use Rattle.rules.specs.Words.{eq_z, is_in, some_with};
ghost use Rattle.rules.specs.Layout.{given};
ghost use Rattle.builder.specs.Added.{Chosen, FromIds};

use crate::builder::TableMetadataBuilder;
use crate::checks::choose;
use records::replies::{ACCEPTED, NOTHING_ADDED, UNKNOWN_ID};
use search::{Key, highest, is_in, next};

const LAST_ADDED: i64 = TableMetadataBuilder::LAST_ADDED as i64;

// The id is the last added, where there is one.
fn is_last_added(id: Key, has_last: bool, last: Key) -> bool
    ensures { result ≡ some_with (eq_z id.0) (given has_last last.0) }
{
    has_last & (id == last)
}

// The number of the first check that fails; whether the chosen id is the current one; the id, and the one to log.
#[derive(Clone, Copy)]
pub struct Choice {
    pub number: u8,
    pub unchanged: bool,
    pub id: Key,
    pub logged: Key,
}

// The ids are the held ones.
pub fn choose_id(id: Key, has_last: bool, last: Key, current: Key, ids: &[i64]) -> Choice
    ensures { Chosen id.0 (given has_last last.0) current.0 (is_in ids.now) result.number result.unchanged result.id.0 result.logged.0 }
{
    let asked = id == Key(LAST_ADDED);
    let chosen = if asked & has_last { last } else { id };
    let unchanged = chosen == current;
    let held = is_in(ids, chosen);
    let later = choose(!unchanged & !held, UNKNOWN_ID, ACCEPTED);
    let number = choose(asked & !has_last, NOTHING_ADDED, later);
    let is_last = is_last_added(chosen, has_last, last);
    let logged = if is_last { Key(LAST_ADDED) } else { chosen };
    Choice {
        number,
        unchanged,
        id: chosen,
        logged,
    }
}

// The id that an added one gets: that of a held equal one, if one is found, which may be the last added, else the next, unless ids are exhausted.
#[derive(Clone, Copy)]
pub struct AddedId {
    pub found: bool,
    pub exhausted: bool,
    pub is_last: bool,
    pub id: Key,
}

// An equal one stands at the place; none does where the place is the number of ids.
pub fn reuse_or_create_new_id(
    ids: &[i64],
    place: usize,
    largest: Key,
    has_last: bool,
    last: Key,
) -> AddedId
    ensures { FromIds ids.now place largest.0 (given has_last last.0) result.found result.exhausted result.is_last result.id.0 }
{
    if place < ids.len() {
        let id = Key(ids[place]);
        return AddedId {
            found: true,
            exhausted: false,
            is_last: is_last_added(id, has_last, last),
            id,
        };
    }
    let highest = highest(ids);
    AddedId {
        found: false,
        exhausted: highest >= largest,
        is_last: false,
        id: next(highest, largest),
    }
}
