// One statement of a firmware file, as its words say it.
#![tactic(auto)]

pub mod asking;
pub mod clauses;
pub mod kinds;
pub mod names;
pub mod statement;
pub mod words;
