// Where the going through a text is: what may come next, the version, the open brackets, and what was found so far.
ghost use Rattle.std.specs.Prelude.{◌≤◌};

use crate::reason::Reason;
use file_members::kind::HELD_SCHEMA;
use file_members::seen::FLAGS;
use json_told::found::Found;

pub const DEEPEST: usize = 16;

// What may come next.
#[derive(Clone, Copy, PartialEq, Eq, Debug)]
pub enum Expect {
    Value,
    FirstValue,
    Name,
    FirstName,
    Colon,
    After,
    NothingMore,
    Stopped,
}

// What is open: a list of what is wanted of each element, a record of a kind, refs by their names, or what is not judged.
#[derive(Clone, Copy, PartialEq, Eq, Debug)]
pub enum Opened {
    Outside,
    List(usize),
    Record(usize),
    Named,
    Free,
}

// An open bracket: what it opens, what that is by itself, where it stands, how many elements it has, the schema around, where the name of a field stands,
// and which members of a record were seen.
#[derive(Clone, Copy, PartialEq, Eq, Debug)]
pub struct Level {
    pub opened: Opened,
    pub own: usize,
    pub first: usize,
    pub count: usize,
    pub schema: usize,
    pub field_named: Option<usize>,
    pub seen: [bool; FLAGS],
}

impl Level {
    fn outside() -> Level {
        Level {
            opened: Opened::Outside,
            own: 0,
            first: 0,
            count: 0,
            schema: 0,
            field_named: None,
            seen: [false; FLAGS],
        }
    }

    pub fn is_list(&self) -> bool {
        match self.opened {
            Opened::List(_) => true,
            _ => false,
        }
    }

    pub fn has_seen(&self, member: usize) -> bool {
        self.seen.get(member).is_some_and(|is_seen| *is_seen)
    }
}

// The version is 0 before it is known; pending is what is wanted of the value behind a name.
#[derive(Drop)]
pub struct Course {
    pub expect: Expect,
    pub version: usize,
    pub pending: usize,
    depth: usize,
    levels: [Level; DEEPEST + 1],
    pub found: Found<Reason>,
    ghost in_levels: { depth ≤ 16 },
}

impl Course {
    pub fn by_version(version: usize) -> Course {
        Course {
            expect: Expect::Value,
            version,
            pending: 0,
            depth: 0,
            levels: [Level::outside(); DEEPEST + 1],
            found: Found::nothing(),
        }
    }

    pub fn depth(&self) -> usize {
        self.depth
    }

    // The innermost open bracket.
    pub fn innermost(&self) -> &Level {
        &self.levels[self.depth]
    }

    pub fn name_field(&mut self, at: usize) {
        self.levels[self.depth].field_named = Some(at);
    }

    pub fn see(&mut self, member: usize) {
        if member < FLAGS {
            self.levels[self.depth].seen[member] = true;
        }
    }

    pub fn count_one(&mut self) {
        let count = self.levels[self.depth].count;
        self.levels[self.depth].count = count.wrapping_add(1);
    }

    // One more bracket. A schema is the one around what stands in it.
    pub fn open(&mut self, opened: Opened, own: usize, first: usize) {
        let schema = if opened == Opened::Record(HELD_SCHEMA) {
            first
        } else {
            self.innermost().schema
        };
        if self.depth < DEEPEST {
            self.depth += 1;
        }
        self.levels[self.depth] = Level {
            opened,
            own,
            first,
            count: 0,
            schema,
            field_named: None,
            seen: [false; FLAGS],
        };
    }

    // What may come behind a value.
    pub fn go_behind(&mut self) {
        self.expect = if self.depth == 0 {
            Expect::NothingMore
        } else {
            Expect::After
        };
    }

    pub fn close(&mut self) {
        if self.depth > 0 {
            self.depth -= 1;
        }
        self.go_behind();
    }
}
