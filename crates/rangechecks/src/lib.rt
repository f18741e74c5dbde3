// Ranges of bytes: whether one, or each of another ledger, lies inside a pair of a ledger, and whether no two of a list share a byte.
#![tactic(auto)]

pub mod disjoint;
pub mod nested;
pub mod search;
