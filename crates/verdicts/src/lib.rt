// The verdict. Internal to the receiver but for the verdict's type: a host calls `receiver`.
#![tactic(auto)]

pub mod verdict;
