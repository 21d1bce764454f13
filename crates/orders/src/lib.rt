// Two orders of the same deliveries: one is the other with those by name, or those by glob, first.
//
// The other order is stable (`order`), so that where the same deliveries are taken in both, each place takes the same. Both are made by
// the call of the three laws, and what came of them is compared (`agreement`, `compare`).
#![tactic(auto)]

pub mod agreement;
pub mod compare;
pub mod order;
