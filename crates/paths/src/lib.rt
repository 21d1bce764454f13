// What a path was read as, for people and for programs.
#![tactic(auto)]

pub mod show;
pub mod told;
