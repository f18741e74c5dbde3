// A call's bytes taken in runs. Internal to the receiver: a host calls `receiver`.
#![tactic(auto)]

mod header_run;
mod payload_run;
mod run;
pub mod take;
