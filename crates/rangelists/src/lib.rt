// A ledger as text: restart range lists (document 01, "Control lines").
#![tactic(auto)]

pub mod ranges;
