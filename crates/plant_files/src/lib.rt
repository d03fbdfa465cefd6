// The shortest file of a plant: definitions (specs/), and theorems (proofs/) that it reads as the plant and that no file of the plant is
// shorter. This crate has no function.
#![tactic(auto)]
