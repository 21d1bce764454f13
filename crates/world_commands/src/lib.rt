// The commands of a world, what is answered to each, and the text of an answer.
#![tactic(auto)]

pub mod answer;
mod answer_text;
pub mod command;
mod entry_text;
mod entry_words;
pub mod fields;
mod question_words;
pub mod world;
