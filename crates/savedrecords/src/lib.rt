// A saved ledger's record, of kind 1 or 2: judged and taken apart.
#![tactic(auto)]

pub mod kind;
pub mod pair;
pub mod record;
