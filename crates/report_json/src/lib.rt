// A file, its items, places, paths and answers, and the account of it, as JSON.
#![tactic(auto)]

pub mod answer_json;
pub mod json;
pub mod place_json;
