// What a run starts with: the checks before the first update, and the refusal.
// A refusal gives document 01's number and the place, the metadata that was given, no changes and no expired entries.
// Document 01 decides, as the crate `rules` writes it in Run and Answer.
#![tactic(auto)]

ghost use Rattle.std.specs.Prelude.{◌≡◌, ◌&&◌, ◌||◌, ◌≤◌, ltb};
ghost use Rattle.records.specs.declared.metadata.TableMetadata as tables;
ghost use Rattle.records.specs.declared.update.UpdateList as lists;
ghost use Rattle.rules.specs.Capacities.{list_room};
ghost use Rattle.rules.specs.Window.{is_outside};
ghost use Rattle.rules.specs.Offices.{is_office};
ghost use Rattle.rules.specs.WellFormed.{metadata_formed};
ghost use Rattle.rules.specs.Blanks.{is_tidy_metadata};
ghost use Rattle.rules.specs.Layout.{read_metadata};
ghost use Rattle.rules.specs.Register.Outcome.{Refused};
ghost use Rattle.rules.specs.Run.{list_sum};
ghost use Rattle.rules.specs.Kinds.{kind_weight, read_updates};
ghost use Rattle.rules.specs.Answer.{laid_outcome};
ghost use Rattle.start.specs.Start.{start_number};

use records::capacities::{TEXT, UPDATES};
use records::counters::Age;
use records::metadata::{MetadataLog, TableMetadata};
use records::replies::{
    ACCEPTED, LIST_TOO_LONG, OFFICE_UNKNOWN, START_NOT_FORMED, TOLERANCE_OUTSIDE,
};
use records::run::{Answer, FIRST_OFFICE, LONGEST_TOLERANCE_MS, RunTerms, SECOND_OFFICE};
use records::update::{SET_BRANCH_SNAPSHOT, UpdateList};

#[tactic(auto, unfolding(rules::specs::Answer::laid_outcome))]
pub fn refused(m: TableMetadata, number: u8, place: usize) -> Answer
    ensures { result ≡ laid_outcome m (Refused number place) }
{
    Answer {
        number,
        place,
        metadata: m,
        changes: UpdateList::blank(),
        expired: MetadataLog::blank(),
    }
}

// What an update of a kind counts in a list.
pub fn weight(kind: u8) -> usize
    ensures { result ≡ kind_weight kind }
{
    if kind == SET_BRANCH_SNAPSHOT { 2 } else { 1 }
}

// Below 0, or above an hour.
fn is_outside(tolerance: Age) -> bool
    ensures { result ≡ is_outside tolerance.0 }
{
    tolerance.0 < 0 || tolerance.0 > LONGEST_TOLERANCE_MS
}

fn is_office(office: u8) -> bool
    ensures { result ≡ is_office office }
{
    office == FIRST_OFFICE || office == SECOND_OFFICE
}

// A file is given whose name has more bytes than there is room for.
fn is_long(has_file: bool, length: usize) -> bool
    ensures { result ≡ (has_file && ltb 96 length) }
{
    has_file && length > TEXT
}

// More updates, or more by their weights, than a list has room for.
fn is_above(count: usize, sum: usize) -> bool
    ensures { result ≡ (ltb 64 count || ltb 64 sum) }
{
    count > UPDATES || sum > UPDATES
}

// 1, then 2, then 26, then 39. Whether the metadata is well formed is handed over, and not the metadata, which would be copied. The sum is that of
// the list, where its count is at most 64.
pub fn start_number(is_formed: bool, terms: RunTerms, count: usize, sum: usize) -> u8
    ensures { (m : tables.TableMetadata) (us : lists.UpdateList) → is_formed ≡ (is_tidy_metadata m && metadata_formed (read_metadata m)) → us.count ≡ count → (count ≤ list_room → sum ≡ list_sum (read_updates us)) → result ≡ start_number m us terms }
{
    if !is_formed {
        return START_NOT_FORMED;
    }
    if is_long(terms.has_file, terms.file.len) {
        return START_NOT_FORMED;
    }
    if is_above(count, sum) {
        return LIST_TOO_LONG;
    }
    if is_outside(terms.tolerance_ms) {
        return TOLERANCE_OUTSIDE;
    }
    if !is_office(terms.office) {
        return OFFICE_UNKNOWN;
    }
    ACCEPTED
}
