// The control channel's host-ports, one by one (document 01, "Control lines").
#![tactic(auto)]

pub mod host_port;
