// The keyed tables, each by value: search, put, remove by key. What is the same for all is written once, over runs of records (`runs`).
// Nothing is refused here; the callers check that there is room.
// Document 01, "Tables are ascending by key", as the crate `rules` writes it in Words (`put`, `keep`, `first`).
#![tactic(auto)]

pub mod ids;
pub mod keys;
pub mod names;
pub mod partition_specs;
pub mod refs;
pub mod runs;
pub mod schemas;
pub mod snapshots;
pub mod sort_orders;
pub mod statistics;
