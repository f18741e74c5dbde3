// What a host in C or Rust links: a function for each public entry, with structs of numbers in place of enums.
//
// In every answer `refused` is the number of documents 01 and 02, 0 where nothing is refused, and a field that means nothing in a case is 0.
#![tactic(auto)]

pub mod calls;
pub mod consoles;
pub mod header;
pub mod hosts;
pub mod ledgers;
pub mod line;
pub mod reply;
pub mod sending;
pub mod written;
