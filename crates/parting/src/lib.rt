// The mathematics of one part's own table: definitions in specs/, theorems in proofs/. It has no functions.
#![tactic(auto)]
