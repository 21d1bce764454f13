// What a firmware file declares: taken whole or not at all; and its deliveries, made to an index.
#![tactic(auto)]

pub mod definition;
pub mod definitions;
pub mod deliveries;
pub mod file;
pub mod models;
mod path_words;
pub mod pile;
pub mod survey;
pub mod tables;
