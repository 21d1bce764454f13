// The makes of an index. Each keeps its places in rows that the caller lends: the table a row for each place, the ledger
// a row for each entry that came.
#![tactic(auto)]

pub mod entry;
pub mod ledger_index;
mod namespaced;
mod place_rows;
pub mod row_index;
pub mod table_index;
