// What a reader wants, and what it meets in the place of it.

#[derive(Clone, Copy, PartialEq, Eq, Debug)]
pub enum Wanted {
    // A number from 0 to the bound.
    UpTo(u64),
    // A number from -bound to bound - 1.
    Signed(u64),
    // The kind of a case, from 1 to the bound.
    Case(u64),
    // The kind of a run: 1 or the bound.
    Run(u64),
    // A tag of what a run is given more, above the bound.
    Tag(u64),
    // A kind of case that is answered many times: 0 to 3 or the bound.
    Repeated(u64),
    // The count of the owners: the bound.
    Owners(u64),
    // The end of the input.
    End,
    // The kind of an expiry.
    Expiry,
}

#[derive(Clone, Copy, PartialEq, Eq, Debug)]
pub enum Found {
    Number,
    End,
    // A byte that stands in no number.
    Byte(u8),
    // The input could not be read.
    Nothing,
}

// The first fault of an input: where it is, what was wanted there, and what is there instead. Nothing was wanted of an input that could not be read.
#[derive(Clone, Copy, PartialEq, Eq, Debug)]
pub struct Fault {
    pub piece: usize,
    pub number: usize,
    pub byte: usize,
    pub wanted: Option<Wanted>,
    pub found: Found,
}
