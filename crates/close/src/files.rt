// The metadata log at the close: the oldest entries above the limit expire, and the current file's entry joins those that stay.
ghost use Rattle.std.specs.Prelude.{◌≡◌, ◌+◌, ◌-◌, ◌≤◌, ◌<◌, true, cond, ◌++◌, ltb, take, drop};
ghost use Rattle.rules.specs.Capacities.{metadata_log_room};
ghost use Rattle.rules.specs.Layout.{read_metadata_log, laid_metadata_log};
ghost use Rattle.tables.specs.Laid.{LaidMetadataLog};
ghost use Rattle.close.specs.Answers.{joining};

use builder::text::clean;
use records::capacities::METADATA_LOG;
use records::counters::Time;
use records::metadata::{MetadataLog, MetadataLogEntry};
use records::run::RunTerms;

// How many entries expire of so many and the one that joins them.
pub fn surplus(n: usize, joins: bool, limit: u64) -> usize
    requires { n ≤ 128 }
    ensures { result ≡ cond joins (n + 1) n - limit }
{
    let all = if joins { n + 1 } else { n };
    if limit >= all as u64 {
        return 0;
    }
    all - limit as usize
}

// Whether more entries would stay than the log has room for.
pub fn is_overfull(n: usize, joins: bool, gone: usize) -> bool
    requires n_bound { n ≤ 128 }
    requires gone_le_n { gone ≤ n }
    ensures { result ≡ ltb metadata_log_room (cond joins (n + 1) n - gone) }
{
    joins & (n - gone >= METADATA_LOG)
}

// The entries from a place up to another.
pub fn part(log: MetadataLog, from: usize, until: usize) -> MetadataLog
    requires laid_metadata_log { LaidMetadataLog log }
    requires from_le_until { (from ≤ until) × (until ≤ log.count) }
    ensures { result ≡ laid_metadata_log (drop from (take until (read_metadata_log log))) }
{
    let mut part = MetadataLog::blank();
    for (i, entry) in log.items[from..until].iter().enumerate() {
        part.items[i] = *entry;
    }
    part.count = until - from;
    part
}

// The entries from a place on, moved to the front of the same log: a second log would be blanked first, and copied.
fn moved(mut log: MetadataLog, gone: usize) -> MetadataLog
    requires laid_metadata_log { LaidMetadataLog log }
    requires gone_le_count { gone ≤ log.count }
    ensures { result ≡ laid_metadata_log (drop gone (read_metadata_log log)) }
{
    let left = log.count - gone;
    for i in 0..log.count {
        let entry = if i < left {
            log.items[i + gone]
        } else {
            MetadataLogEntry::blank()
        };
        log.items[i] = entry;
    }
    log.count = left;
    log
}

// The entries that are left once the oldest are gone, and the current file's with the old last update, if one is given.
pub fn staying(mut log: MetadataLog, gone: usize, terms: RunTerms, old: Time) -> MetadataLog
    requires laid_metadata_log { LaidMetadataLog log }
    requires gone_le_count { gone ≤ log.count }
    requires gone_bound { terms.has_file ≡ true → (log.count - gone < 128) × (terms.file.len ≤ 96) }
    ensures { result ≡ laid_metadata_log (drop gone (read_metadata_log log) ++ joining terms old) }
{
    let joins = terms.has_file;
    let file = terms.file;
    if gone > 0 {
        log = moved(log, gone);
    }
    if !joins {
        return log;
    }
    let k = log.count;
    let metadata_file = clean(file);
    let e = MetadataLogEntry {
        metadata_file,
        timestamp_ms: old,
    };
    log.items[k] = e;
    log.count = k + 1;
    log
}
