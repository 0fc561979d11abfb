// Metadata files both ways: that the import of an exported file answers the metadata that was exported. This crate has no code.
#![tactic(auto)]
