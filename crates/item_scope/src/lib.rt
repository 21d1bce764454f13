// What a module's names stand for: places, the deliveries that fill them, and indexes, which tell them.
//
// A place is a module, a name and a namespace: empty, held by a glob, or held by name. A delivery brings entries to the places
// of one name of one module, under the import that brings them. An index tells a module tree, the tables of crates, maps, enums
// and macros, and the places; one way to keep all that is a make. An index over another index is a pile: it tells what the one
// below tells where it has nothing of its own. An index keeps what it stores in rows, and `left` says how many are free.
//
// In item_scope.rs of rust-analyzer's hir_def the places are the maps of `ItemScope` together with `PerNsGlobImports`, which of
// them a glob holds; `Index::get` is `ItemScope::get`, and a delivery is a call of `push_res_with_import`, whose cases are the
// four steps (`steps`).
#![tactic(auto)]

pub mod delivery;
pub mod index;
pub mod index_data;
pub mod place;
pub mod refusal;
pub mod steps;
