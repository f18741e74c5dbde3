// The kinds of bytes in a text, and how many of a kind it begins with. Every function takes any input.
#![tactic(auto)]

pub mod text;
