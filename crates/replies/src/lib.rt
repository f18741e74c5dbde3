// The control channel's reply codes and their classes (document 01, "Control lines").
#![tactic(auto)]

pub mod reply;
