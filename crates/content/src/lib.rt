// What a table says, told its edition: readers here, and in proofs/ that what an accepted file says determines the file (document 02, S-5).
#![tactic(auto)]

pub mod readers;
