// The updates of one of the two tables of statistics files: which of them an update is, and the table after it.
ghost use Rattle.std.specs.Prelude.{◌≡◌, true, ◌≤◌};
ghost use Rattle.rules.specs.Words.{ascending};
ghost use Rattle.rules.specs.WellFormed.{statistics_below, update_formed};
ghost use Rattle.rules.specs.Layout.{read_statistics};
ghost use Rattle.rules.specs.Kinds.{is_tidy_update, read_kind};
ghost use Rattle.tables.specs.Laid.{LaidStatistics};
ghost use Rattle.statistics_updates.specs.Family.{is_setting, files_after, FilesDecided};
ghost use Rattle.statistics_updates.specs.Files.{NewFile};

use crate::{remove_statistics, set_statistics, statistics_after};
use builder::builder::TableMetadataBuilder;
use builder::decision::Decision;
use records::statistics::StatisticsFiles;
use records::update::{SET_PARTITION_STATISTICS, SET_STATISTICS, TableUpdate};

pub fn decide(b: TableMetadataBuilder, t: StatisticsFiles, u: TableUpdate) -> Decision
    requires laid_statistics { LaidStatistics t }
    requires u_value { is_tidy_update u ≡ true }
    requires u_value_2 { update_formed (read_kind u) ≡ true }
    ensures { FilesDecided b t u result }
{
    if (u.kind == SET_STATISTICS) | (u.kind == SET_PARTITION_STATISTICS) {
        return set_statistics(b, t, u);
    }
    remove_statistics(b, t, u)
}

// The file of a setting is put into the table, and that of a removal goes.
pub fn after(t: StatisticsFiles, u: TableUpdate, d: Decision) -> StatisticsFiles
    requires laid_statistics { LaidStatistics t }
    requires t_value { ascending statistics_below (read_statistics t) ≡ true }
    requires new_file { is_setting u ≡ true → d.grows ≡ true → NewFile t d.entry.statistics.file }
    ensures { result ≡ files_after t u d }
{
    if (u.kind == SET_STATISTICS) | (u.kind == SET_PARTITION_STATISTICS) {
        return statistics_after(t, d);
    }
    tables::statistics::without(t, u.statistics.removed)
}
