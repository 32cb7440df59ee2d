// The converter of document 02, S-5: a table of one edition, written in the other.
#![tactic(auto)]

pub mod convert;
