// A change log written as published JSON: the rule as definitions, and what is true of it by computation. This crate has no code.
#![tactic(auto)]
