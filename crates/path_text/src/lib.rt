// Text of paths and lists of names.
#![tactic(auto)]

mod first_numbers;
mod language;
pub mod mod_path;
pub mod name_list;
pub mod path_text;
pub mod read;
mod segment;
pub mod write;
