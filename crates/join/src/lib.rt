// Document 02, S-7: the tables of house and tour, joined in one.
#![tactic(auto)]

mod arrays;
mod facts;
mod heads;
pub mod join;
mod pairs;
mod totals;
