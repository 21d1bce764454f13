// The report on the base of a file: for people, in lines of words, as JSON.
#![tactic(auto)]

pub mod answer_report;
mod base;
mod item_report;
pub mod place_report;
pub mod report;
mod sights;
pub mod style;
