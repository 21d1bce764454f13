// What is written of items, places and answers, for people and as lines of words: who sees an item as a range, and what holds a place.
#![tactic(auto)]

pub mod answers;
pub mod counts;
pub mod holders;
pub mod items;
pub mod names;
pub mod places;
pub mod range;
pub mod seen;
