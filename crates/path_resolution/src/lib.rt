// Questions: what a path stands for where it is asked.
//
// A path is asked in a module, then from block roots in their outside modules, and last in the crate's preludes, and the answers
// are merged (`path_resolution`). In one module (`single`) it begins at a module (`starts`) or with what its first name means
// there (`sources`), and its further names are asked one after the other (`remaining_segments`). All of it is
// path_resolution.rs of rust-analyzer's hir_def, over any `Index`, without that crate's recursion.
#![tactic(auto)]

pub mod answer;
pub mod path_resolution;
pub mod question;
mod remaining_segments;
mod single;
pub mod small_tree;
mod sources;
mod starts;
