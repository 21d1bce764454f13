// A card model's index, what came of its deliveries in two orders, its items and the paths that are asked of it.
#![tactic(auto)]

pub mod model_run;
pub mod parts;
