// Metadata files as published JSON: the rule as definitions, and what is true of it alone. This crate has no code.
#![tactic(auto)]
