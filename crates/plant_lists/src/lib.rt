// The list of numbers that says a plant: definitions (specs/), and theorems (proofs/) that it says a plant within the limits, that every
// plant that a file reads as has such a list, and that it is the only one. This crate has no function.
#![tactic(auto)]
