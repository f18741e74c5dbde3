// The screen line of a transfer.
#![tactic(auto)]

pub mod line;
