// Numbers in bytes and in decimal digits, and lists of entries. Every function takes any input: a reader of bytes reads eight at most, a writer
// fills all that it is lent.
#![tactic(auto)]

pub mod big;
pub mod decimal;
mod digit_bytes;
pub mod entries;
pub mod little;
