// What the calls share that write a table (convert, join, parts): their answer, and functions that write a section.
#![tactic(auto)]

pub mod answer;
pub mod columns;
