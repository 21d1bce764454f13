// Writes the reports on files: on the base, and on each card model over it.
#![tactic(auto)]

pub mod files;
pub mod indexed;
mod model_report;
pub mod models;
mod results;
mod verdict_report;
