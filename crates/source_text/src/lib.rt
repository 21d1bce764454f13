// Lines of text: their words with the places of these, plain numbers, and the excerpt that shows a place of a line.
#![tactic(auto)]

mod cell;
pub mod excerpt;
pub mod number;
pub mod words;
