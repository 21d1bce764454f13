// What is wrong with a firmware file, where, and how that is told.
#![tactic(auto)]

pub mod complaint;
pub mod trouble;
