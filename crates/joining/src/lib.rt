// The mathematics of document 02, S-7: the join of two contents in specs/, and in proofs/ what is shown of it.
#![tactic(auto)]
