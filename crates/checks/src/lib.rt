// FIT: whether a transfer, a file and two ledgers belong together.
#![tactic(auto)]

pub mod fit;
mod numbers;
