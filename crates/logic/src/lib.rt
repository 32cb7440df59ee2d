// The mathematics of the rule engine: definitions in specs/, theorems in proofs/. It has no functions.
#![tactic(auto)]
