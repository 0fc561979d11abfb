// That import of an export gives equal metadata: what the rule of metadata files reads of what it writes. This crate has no code.
#![tactic(auto)]
