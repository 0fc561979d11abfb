// Metadata: its single fields a line each, then its tables.
use crate::table::{say_elements, say_heading};
use crate::template::say_part;
use cards::card::counted;
use cards::partition::are_specs_told;
use cards::record::{identity, single_fields};
use cards::table::{
    OF_FILES, OF_PARTITION_SPECS, OF_REFS, OF_SNAPSHOTS, TABLES, chosen_of, count_of, only_files,
};
use records::metadata::{MetadataLog, SingleFields, TableMetadata};
use tokens::output::Output;

pub fn say_files(output: &mut Output, heading: &[u8], log: MetadataLog) {
    say_heading(output, heading, log.count);
    say_elements(output, only_files(log), OF_FILES);
}

// What goes with the partition specs is said where they are.
fn say_fields(output: &mut Output, fields: SingleFields, with_specs: bool) {
    let first = b"  format version: #0\
        \n  uuid: ^\n";
    let others = b"  location: $\
        \n  last update: #0 (@0)\
        \n  last sequence number: #1\
        \n  next row id: %0\
        \n  last column id: #2\
        \n  current snapshot: ?3{none|#4}\
        \n  current schema: #5\
        \n  default sort order: #6\n";
    let last = b";  default partition spec: #0\
        \n  last partition id: #1\n";
    say_part(output, first, 0, 0, identity(fields));
    say_part(output, others, 0, 0, single_fields(fields));
    let chosen = chosen_of(fields, OF_PARTITION_SPECS);
    say_part(output, last, with_specs as usize, 0, chosen);
}

// A template for each table. Few tables have statistics, so an empty one is passed over.
fn say_table(output: &mut Output, metadata: TableMetadata, table: usize) {
    let headings = b"  snapshots: %0\n\
        ;  refs: %0\n\
        ;  snapshot log: %0\n\
        ;  metadata log: %0\n\
        ;  schemas: %0\n\
        ;  sort orders: %0\n\
        ;?0{|  statistics: %0\n}\
        ;?0{|  partition statistics: %0\n}\
        ;  partition specs: %0\n";
    let counts = counted(count_of(metadata, table), 0);
    say_part(output, headings, table, 0, counts);
    say_elements(output, metadata, table);
}

// The tables in the order of their numbers, but that refs stand before snapshots.
fn told(place: usize) -> usize {
    match place {
        0 => OF_REFS,
        1 => OF_SNAPSHOTS,
        _ => place,
    }
}

// The last table is that of the partition specs, which are not told everywhere.
fn tables_told(with_specs: bool) -> usize {
    if with_specs {
        TABLES
    } else {
        OF_PARTITION_SPECS
    }
}

pub fn say_metadata(output: &mut Output, metadata: TableMetadata) {
    let with_specs = are_specs_told(metadata);
    say_fields(output, metadata.fields, with_specs);
    let n = tables_told(with_specs);
    for i in 0..n {
        say_table(output, metadata, told(i));
    }
}
