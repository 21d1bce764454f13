// Worlds as lines of text: tables, and commands that are answered from them, a line for a line.
#![tactic(auto)]

mod index_rows;
mod lines;
mod pile;
mod play;
mod tables;
mod words;

pub use play::answer_input;
