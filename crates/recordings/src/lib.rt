// Replay of a recording (document 02, Item 4): chunks of it in, printed lines out.
#![tactic(auto)]

pub mod feed;
pub mod finish;
mod first;
mod line;
mod request;
pub mod session;
mod step;
mod turn;
