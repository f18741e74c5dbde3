// Counts over the channels of a transfer.
#![tactic(auto)]

pub mod count;
