// Lists and numbers: definitions (specs/) and laws (proofs/) that every other crate cites. It has no function.
#![tactic(auto)]
