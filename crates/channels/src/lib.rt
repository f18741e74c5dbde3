// One channel apart from its transfer, and its next state. Internal to the receiver: a host calls `receiver`.
#![tactic(auto)]

pub mod channel_state;
pub mod next_state;
pub mod other_channels;
