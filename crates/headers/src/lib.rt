// A header of 17 bytes judged and applied to its channel. Internal to the receiver: a host calls `receiver`.
#![tactic(auto)]

pub mod apply;
mod claim_range;
mod judge;
