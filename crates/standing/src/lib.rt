// How a rule stands over the lines of a log: firing, out or waiting (document 02, S-3).
#![tactic(auto)]

pub mod answer;
pub mod marks;
pub mod standings;
pub mod stands;
