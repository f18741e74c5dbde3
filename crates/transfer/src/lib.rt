// One transfer: what the receiver remembers between calls (document 01, "One transfer").
#![tactic(auto)]

pub mod state;
