// Tests of the firmware reader and its reports, on whole texts.
#![tactic(auto)]

#[cfg(test)]
mod deliveries;
#[cfg(test)]
mod models;
#[cfg(test)]
mod models_told;
#[cfg(test)]
mod questions;
#[cfg(test)]
mod reading;
#[cfg(test)]
mod written;
