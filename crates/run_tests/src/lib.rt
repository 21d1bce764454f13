// A test of runs at concrete makes: what two orders of the same calls come to, on a table and on a ledger.
#![tactic(auto)]

#[cfg(test)]
mod runs_compared;
#[cfg(test)]
mod tree;
