// What is written of a card model, for people, in lines of words, as JSON: what two orders of its deliveries come to, what it keeps and
// cuts, its account.
#![tactic(auto)]

pub mod comparison;
pub mod item_told;
pub mod model_json;
pub mod model_told;
pub mod reason_told;
