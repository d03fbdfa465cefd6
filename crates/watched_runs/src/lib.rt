// What a watched run is, and what the calls on a watcher owe for it: definitions (specs/) and theorems (proofs/). This crate has no function and no type.
#![tactic(auto)]
