// The control channel's lists of host-ports (document 01, "Control lines").
#![tactic(auto)]

pub mod list;
