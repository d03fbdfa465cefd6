// Definitions (specs/) and theorems (proofs/) about plants, runs, cycles and weights. This crate has no function.
#![tactic(auto)]
