// Tables by key over rows that the caller lends.
#![tactic(auto)]

mod link;
pub mod row;
pub mod table;
