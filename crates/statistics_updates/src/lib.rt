// Statistics files: setting, removing. One function serves both tables.
// Document 02, request (ii), as the crate `rules` writes it in StatisticsUpdates.
#![tactic(auto)]

ghost use Rattle.std.specs.Prelude.{◌≡◌, true, cond, ◌||◌, eqb};
ghost use Rattle.rules.specs.Words.{ascending, put as putBy};
ghost use Rattle.rules.specs.Register.{StatisticsTable, Terms, State, statistics_of};
ghost use Rattle.rules.specs.WellFormed.{statistics_below, update_formed};
ghost use Rattle.rules.specs.Layout.{read_statistics_file, read_statistics, laid_statistics};
ghost use Rattle.rules.specs.Kinds.{is_tidy_update, read_kind, removing_kind, set_statistics_kind, set_partition_statistics_kind};
ghost use Rattle.tables.specs.Laid.{LaidStatistics};
ghost use Rattle.builder.specs.Pieces.{laid_builder};
ghost use Rattle.builder.specs.Answers.{Decides};
ghost use Rattle.statistics_updates.specs.Files.{FileDecided, NewFile};

use builder::builder::TableMetadataBuilder;
use builder::checks::{choose, is_full};
use builder::decision::{Decision, decided};
use records::capacities::STATISTICS;
use records::replies::{ACCEPTED, TABLE_FULL};
use records::statistics::StatisticsFiles;
use records::update::TableUpdate;
use tables::statistics::{has_file_of, put};

pub mod family;

// A file is set and logged also where the table has an equal one.
pub fn set_statistics(b: TableMetadataBuilder, t: StatisticsFiles, u: TableUpdate) -> Decision
    requires laid_statistics { LaidStatistics t }
    requires u_value { is_tidy_update u ≡ true }
    requires u_value_2 { update_formed (read_kind u) ≡ true }
    requires set_partition_statistics_kind_value { (eqb u.kind set_statistics_kind || eqb u.kind set_partition_statistics_kind) ≡ true }
    ensures { FileDecided b t u result }
{
    let held = has_file_of(t, u.statistics.file.snapshot_id);
    let full = is_full(!held, t.count, STATISTICS);
    let number = choose(full, TABLE_FULL, ACCEPTED);
    Decision {
        number,
        logs: true,
        grows: number == ACCEPTED,
        builder: b,
        entry: u,
    }
}

// The table after a setting: its file is put into it.
pub fn statistics_after(t: StatisticsFiles, d: Decision) -> StatisticsFiles
    requires laid_statistics { LaidStatistics t }
    requires t_value { ascending statistics_below (read_statistics t) ≡ true }
    requires new_file { d.grows ≡ true → NewFile t d.entry.statistics.file }
    ensures { result ≡ cond d.grows (laid_statistics (putBy statistics_below (read_statistics_file d.entry.statistics.file) (read_statistics t))) t }
{
    if d.grows {
        return put(t, d.entry.statistics.file);
    }
    t
}

// A snapshot that has no file in the table: nothing.
pub fn remove_statistics(b: TableMetadataBuilder, t: StatisticsFiles, u: TableUpdate) -> Decision
    requires laid_statistics { LaidStatistics t }
    requires u_value { is_tidy_update u ≡ true }
    ensures { (which : StatisticsTable) (terms : Terms) (st : State) → u.kind ≡ removing_kind which → b ≡ laid_builder st → t ≡ laid_statistics (statistics_of which st.metadata) → Decides terms u st result }
{
    let held = has_file_of(t, u.statistics.removed);
    decided(ACCEPTED, held, b, u)
}
