// The starred worked examples of document 01 as one collected theorem. This crate has no function.
#![tactic(auto)]
