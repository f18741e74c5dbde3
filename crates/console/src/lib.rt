// The console: the order of a session's commands, answered by codes (document 02, Item 9).
#![tactic(auto)]

pub mod endings;
pub mod lines;
pub mod state;
