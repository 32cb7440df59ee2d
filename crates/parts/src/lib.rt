// Document 02, S-8: the parts of a table, and one part's own table.
#![tactic(auto)]

pub mod answer;
mod chains;
mod kept;
pub mod list;
pub mod part;
