// Where a place stands in a text: its line and column, and the names and positions that lead there. The text is one that a reader went through up to
// that place, so brackets and quotes nest, and not more than sixteen brackets are open.
ghost use Rattle.std.specs.Prelude.{◌≤◌};

use cards::card::Card;

const DEEPEST: usize = 16;

// Where an open bracket is gone into: at a position of a list, or at a member of an object, by the place of its name, if that was read.
#[derive(Clone, Copy, PartialEq, Eq, Debug)]
pub enum Step {
    Item(usize),
    Member(Option<usize>),
}

// Whether a place is in a text, and there behind a backslash.
#[derive(Clone, Copy, PartialEq, Eq, Debug)]
enum Quoted {
    No,
    Text,
    Escape,
}

// How many newlines were passed, and the place behind the last; how many brackets are open, whether a text is, and the step at each depth: what is outside
// of all brackets is like a list.
#[derive(Clone, Copy, PartialEq, Eq, Debug)]
pub struct Path {
    newlines: usize,
    line_start: usize,
    depth: usize,
    quoted: Quoted,
    steps: [Step; DEEPEST + 1],
    ghost in_steps: { depth ≤ 16 },
}

impl Path {
    fn start() -> Path {
        Path {
            newlines: 0,
            line_start: 0,
            depth: 0,
            quoted: Quoted::No,
            steps: [Step::Item(0); DEEPEST + 1],
        }
    }

    // The path that leads to a place. A name that stands there leads there too.
    pub fn to(text: &[u8], place: usize) -> Path {
        let mut path = Path::start();
        for (i, &byte) in text.iter().enumerate() {
            if i < place {
                path.pass(byte, i);
            } else {
                if byte == b'"' {
                    path.pass(byte, i);
                }
                return path;
            }
        }
        path
    }

    // The steps of the open brackets, from the outermost.
    pub fn steps(&self) -> &[Step] {
        &self.steps[1..=self.depth]
    }

    // The step at a depth, counted from 1 for the outermost bracket.
    pub fn step_at(&self, depth: usize) -> Option<Step> {
        self.steps.get(depth).copied()
    }

    // The step of the innermost bracket but one.
    pub fn step_around(&self) -> Option<Step> {
        self.step_at(self.depth.checked_sub(1)?)
    }

    // The line and the column of a place up to which the text was gone through; of one behind what is held, the byte. All are counted from 1.
    pub fn spot_card(&self, place: usize, is_held: bool) -> Card {
        let byte = place.wrapping_add(1) as u64;
        if is_held {
            let line = self.newlines.wrapping_add(1) as u64;
            let column = place.wrapping_sub(self.line_start).wrapping_add(1) as u64;
            return Card::of_numbers([0; 8], [line, column]);
        }
        Card::of_numbers([1, 0, 0, 0, 0, 0, 0, 0], [byte, 0])
    }

    fn open(&mut self, step: Step) {
        if self.depth < DEEPEST {
            self.depth += 1;
        }
        self.steps[self.depth] = step;
    }

    fn close(&mut self) {
        if self.depth > 0 {
            self.depth -= 1;
        }
    }

    // The next element of a list, or a name that is still to come.
    fn go_on(&mut self) {
        self.steps[self.depth] = match self.steps[self.depth] {
            Step::Item(position) => Step::Item(position.wrapping_add(1)),
            Step::Member(_) => Step::Member(None),
        };
    }

    // A text begins: the name of a member, where one is still to come.
    fn quote(&mut self, at: usize) {
        self.quoted = Quoted::Text;
        if self.steps[self.depth] == Step::Member(None) {
            self.steps[self.depth] = Step::Member(Some(at));
        }
    }

    // The byte at a place outside of texts.
    fn turn(&mut self, byte: u8, at: usize) {
        match byte {
            b'[' => self.open(Step::Item(0)),
            b'{' => self.open(Step::Member(None)),
            b']' | b'}' => self.close(),
            b',' => self.go_on(),
            b'"' => self.quote(at),
            _ => {}
        }
    }

    // The byte at a place is passed.
    fn pass(&mut self, byte: u8, at: usize) {
        if byte == b'\n' {
            self.newlines = self.newlines.wrapping_add(1);
            self.line_start = at.wrapping_add(1);
        }
        match self.quoted {
            Quoted::No => self.turn(byte, at),
            Quoted::Escape => self.quoted = Quoted::Text,
            Quoted::Text => match byte {
                b'\\' => self.quoted = Quoted::Escape,
                b'"' => self.quoted = Quoted::No,
                _ => {}
            },
        }
    }
}
