// Bytes copied to their place, for the receiver and the sender; no host calls it.
#![tactic(auto)]

pub mod copy;
