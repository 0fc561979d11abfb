// What a run may be given more, after its updates: a count, then that many tags with their values, in ascending order of the tags.
use cards::table::{
    OF_NAMED_SCHEMAS, OF_OWNERS, OF_PARTITION_SPECS, OF_PARTITION_STATISTICS, OF_STATISTICS,
};
use tokens::field::read_u64;
use tokens::input::Input;
use tokens::wanted::Wanted;

pub const TOLERANCE: u64 = 1;

pub const STATISTICS: u64 = 2;

pub const PARTITION_STATISTICS: u64 = 3;

pub const SCHEMAS: u64 = 4;

pub const PARTITION_SPECS: u64 = 5;

pub const OFFICE: u64 = 6;

pub const OWNERS: u64 = 7;

// Which tables have a tag, and whether the owners of refs have: an answer has these too.
#[derive(Clone, Copy)]
pub struct Given {
    pub statistics: bool,
    pub partition_statistics: bool,
    pub schemas: bool,
    pub partition_specs: bool,
    pub owners: bool,
}

impl Given {
    pub fn none() -> Given {
        Given {
            statistics: false,
            partition_statistics: false,
            schemas: false,
            partition_specs: false,
            owners: false,
        }
    }

    // A tag is given too.
    pub fn with(mut self, tag: u64) -> Given {
        match tag {
            STATISTICS => self.statistics = true,
            PARTITION_STATISTICS => self.partition_statistics = true,
            SCHEMAS => self.schemas = true,
            PARTITION_SPECS => self.partition_specs = true,
            OWNERS => self.owners = true,
            _ => {}
        }
        self
    }

    pub fn has(self, tag: u64) -> bool {
        match tag {
            STATISTICS => self.statistics,
            PARTITION_STATISTICS => self.partition_statistics,
            SCHEMAS => self.schemas,
            PARTITION_SPECS => self.partition_specs,
            OWNERS => self.owners,
            _ => false,
        }
    }
}

// The table of a tag that has one.
pub fn table_of(tag: u64) -> usize {
    match tag {
        STATISTICS => OF_STATISTICS,
        PARTITION_STATISTICS => OF_PARTITION_STATISTICS,
        SCHEMAS => OF_NAMED_SCHEMAS,
        PARTITION_SPECS => OF_PARTITION_SPECS,
        _ => OF_OWNERS,
    }
}

// A tag that is not above the last one, or unknown, spoils the input.
pub fn read_tag(last: u64, input: &mut Input) -> u64 {
    let tag = read_u64(input);
    if tag <= last || tag > OWNERS {
        input.spoil(Wanted::Tag(last));
    }
    tag
}
