// Variants: a card model's own places over an index that many models share.
//
// A variant tells what the index below it tells, save at places that it has copied: at its first delivery to a place it copies the
// place into a row of its own (`own_places`), and there each delivery comes to it by the four steps. It never writes below, and is
// an index and a recipient itself (`variant`), so variants stand in piles.
#![tactic(auto)]

mod namespaced;
mod own_places;
pub mod variant;

pub use crate::own_places::MOST_OWN_PLACES;
