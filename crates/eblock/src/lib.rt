// The extended block header of MODE E (document 01, "The block").
#![tactic(auto)]

pub mod descriptor;
pub mod header;
