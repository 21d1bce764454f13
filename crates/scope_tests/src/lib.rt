// A test of the smallest index: one without places and rows.
#![tactic(auto)]

#[cfg(test)]
mod bare;
