// The channels of a transfer: each tested, and all counted, in one pass.
#![tactic(auto)]

mod channel;
mod held;
pub mod limits;
pub mod report;
mod totals;
