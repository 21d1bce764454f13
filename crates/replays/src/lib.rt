// Answers held against stored ones: which are alike, which differ as a name says, and which are not as written.
#![tactic(auto)]

pub mod rustc;
pub mod stored;
pub mod tally;
pub mod verdict;
pub mod words;
