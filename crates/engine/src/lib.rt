// The engine: the run of a table in a reading, under a budget (document 01, The rule of working, and its price; document 02, S-9).
#![tactic(auto)]

pub mod answer;
mod lines;
pub mod reading;
mod rounds;
pub mod run;
mod tally;
mod tries;
mod work;
