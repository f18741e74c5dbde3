// The receiver of one transfer: what a host calls.
#![tactic(auto)]

pub mod receive;
pub mod show;
pub mod start;
mod transfer_channel;
