// Reads a firmware file into what its statements declare.
#![tactic(auto)]

mod adding;
mod full_names;
mod items;
mod models;
mod modules;
mod nothing;
pub mod reader;
