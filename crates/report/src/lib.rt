// The report: the sheet of a table (document 01, The sheet).
#![tactic(auto)]

pub mod sheet;
mod support;
mod text;
mod verdict;
