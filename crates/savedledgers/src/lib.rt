// Ledgers as saved bytes (document 01, "Saved ledger, kind 1"; document 02, Item 7).
#![tactic(auto)]

pub mod saved;
