// The tables of an index beside its places: what their rows are found by, and how they come in.
#![tactic(auto)]

pub mod keys;
mod load_table;
pub mod loaded_tables;
mod numbers;
