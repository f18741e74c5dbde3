// The frame of a record: length, kind and body. Saved ledgers, recordings and the probe's requests have it.
#![tactic(auto)]

pub mod frame;
