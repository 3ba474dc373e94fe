// A packed DEGAS file read and written again as form 3, so that one picture has one packed file: theorems without
// functions.
#![tactic(auto)]
