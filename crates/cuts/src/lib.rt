// What a card model keeps of a firmware tree and what it cuts: the answers to its paths, the items that they reach, and the verdict
// on each item.
#![tactic(auto)]

pub mod asked;
pub mod reached;
pub mod verdict;
