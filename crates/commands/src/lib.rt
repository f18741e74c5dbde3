// The control channel's command lines (document 01, "Control lines").
#![tactic(auto)]

pub mod line;
