// What is true of the entry point `run`, by its contract alone: it asks nothing, its answers are fixed, each number has its place,
// what is accepted can start the next run, the log suffices, what becomes of a history and of the answer which snapshot was current at a time,
// neither a row id nor a fresh field id is given out twice, what an office leaves of the other's, and what the list of an expiry answers and leaves;
// this last also of the entry points `expiring_updates` and `run` one after the other.
// This crate has no code; its theorems stand in proofs/.
#![tactic(auto)]
