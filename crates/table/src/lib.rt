// The table: the file format of document 01 in both editions of document 02, S-5, what is refused, and the defeasible theory that a table
// says.
#![tactic(auto)]

pub mod accepted;
pub mod body;
mod cycle;
pub mod edition;
pub mod format;
pub mod judge;
mod order;
mod range;
mod whole;
