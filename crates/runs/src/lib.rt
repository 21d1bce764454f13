// Runs: lists of calls of an index, what they come to, and the laws on the places and the answers after them.
//
// A run makes calls of an index in turn, deliveries and questions, any of which may be refused, and writes beside each what came
// of it; at each place items and named imports shadow what globs brought (`calls`). The three laws that whoever reads the answers
// relies on stand on one call (`compare`): the order of deliveries does not matter where names settle (order law), a `crate` path is a
// chain of visible places (chain law), and what the asking module cannot see changes nothing for it (hidden law).
#![tactic(auto)]

pub mod calls;
pub mod compare;
pub mod small_tree;
