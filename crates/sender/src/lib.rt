// The sending side (document 02, Item 1): the next block of a channel, written into lent bytes.
#![tactic(auto)]

pub mod begin;
pub mod next;
mod plan;
mod range;
pub mod state;
