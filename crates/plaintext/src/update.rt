// Updates in words, and lists of them.
use crate::record::{OF_IDS, say_record};
use crate::table::{say_end, say_heading};
use crate::template::say_part;
use crate::text::say;
use cards::card::{Card, counted};
use cards::table::{
    OF_PARTITION_SPECS, OF_REFS, OF_SCHEMAS, OF_SNAPSHOTS, OF_SORT_ORDERS, OF_STATISTICS,
};
use cards::update::{update, update_at};
use records::capacities::UPDATES;
use records::update::{
    ADD_PARTITION_SPEC, ADD_SCHEMA, ADD_SNAPSHOT, ADD_SORT_ORDER, REMOVE_PARTITION_SPECS,
    REMOVE_SCHEMAS, REMOVE_SNAPSHOTS, SET_BRANCH_SNAPSHOT, SET_PARTITION_STATISTICS, SET_REF,
    SET_STATISTICS, TableUpdate, UpdateList,
};
use slot_bounds::with_slots;
use tokens::output::Output;

// The record that is said of a kind, behind its words; none of those whose words say all.
fn record_of(kind: u8) -> usize {
    match kind {
        ADD_SNAPSHOT | SET_BRANCH_SNAPSHOT => OF_SNAPSHOTS,
        REMOVE_SNAPSHOTS | REMOVE_SCHEMAS | REMOVE_PARTITION_SPECS => OF_IDS,
        SET_REF => OF_REFS,
        ADD_SCHEMA => OF_SCHEMAS,
        ADD_SORT_ORDER => OF_SORT_ORDERS,
        SET_STATISTICS | SET_PARTITION_STATISTICS => OF_STATISTICS,
        ADD_PARTITION_SPEC => OF_PARTITION_SPECS,
        _ => OF_IDS + 1,
    }
}

// The template of a kind: the first is for all that are unknown.
fn template_of(kind: u8) -> usize {
    if kind > REMOVE_PARTITION_SPECS {
        return 0;
    }
    kind as usize
}

// A template for each kind, in the order of their numbers.
fn say_card(output: &mut Output, card: Card) {
    let templates = b"update of unknown kind #0\
        ;assign uuid ^\
        ;upgrade to format version #0\
        ;set location $\
        ;add snapshot \
        ;commit to branch $: snapshot \
        ;remove snapshots \
        ;set \
        ;remove ref $\
        ;add schema \
        ;set current schema to #0?1{| (the last added)}\
        ;remove schemas \
        ;add sort order \
        ;set default sort order to #0?1{| (the last added)}\
        ;set statistics of \
        ;remove statistics of snapshot #0\
        ;set partition statistics of \
        ;remove partition statistics of snapshot #0\
        ;add partition spec \
        ;set default partition spec to #0?1{| (the last added)}\
        ;remove partition specs ";
    say_part(output, templates, template_of(card.kind), 0, card);
    say_record(output, record_of(card.kind), card);
}

pub fn say_update(output: &mut Output, u: TableUpdate, offers: &[u8]) {
    say_card(output, update(u, offers));
}

// With its place from 0.
fn say_update_line(output: &mut Output, list: UpdateList, i: usize, offers: &[u8]) {
    say_part(output, b"    %0: ", 0, 0, counted(i, 0));
    say_card(output, update_at(list, i, offers));
    say(output, b"\n");
}

pub fn say_updates(output: &mut Output, heading: &[u8], list: UpdateList, offers: &[u8]) {
    let count = list.count;
    say_heading(output, heading, count);
    let n = with_slots(count, UPDATES);
    for i in 0..n {
        say_update_line(output, list, i, offers);
    }
    say_end(output, count, UPDATES);
}
