// Entries of a module's scope: who may see an item, and what a name stands for in each namespace.
//
// A name of a module can stand for a type, a value and a macro at once; `PerNs` has an entry for each of these namespaces. An
// entry has a def, a visibility and the import that brought it, as `Item` of rust-analyzer's per_ns.rs. Who may see an item is
// told by its `Visibility`, as in visibility.rs there; `is_visible_from` is the Reference's rule.
#![tactic(auto)]

pub mod account;
pub mod per_ns;
pub mod viewers;
pub mod visibility;
