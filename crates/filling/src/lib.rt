// What is filled step by step from an offset of a file on, a line by its records or a picture by its lines: definitions
// and laws over any step. The loops are in the crates that cite them.
#![tactic(auto)]
