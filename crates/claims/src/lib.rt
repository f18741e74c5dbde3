// Claiming ranges in a ledger.
#![tactic(auto)]

pub mod claim;
mod shift;
