// The ledger: which bytes of the file are claimed. Its rule and totals, and the place for a range.
#![tactic(auto)]

pub mod place;
pub mod rule;
pub mod ruled;
