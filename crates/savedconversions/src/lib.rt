// A saved ledger of one kind as one of the other (document 02, Item 7).
#![tactic(auto)]

pub mod conversion;
