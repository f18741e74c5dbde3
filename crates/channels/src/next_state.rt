// A channel's next state, where a payload begins, goes on or is over.
ghost use Rattle.std.specs.Prelude.{◌≡◌, cond, List, ℕ};
ghost use Rattle.transfer.specs.declared.state.Transfer.{Transfer};
ghost use Rattle.transfer.specs.Transfer.{world};
ghost use Rattle.transfer.specs.Receive.{expect_payload};
ghost use Rattle.channels.specs.ChannelState.{HasChannel, write_back};
ghost use Rattle.channels.specs.NextState.{continues_or_stops};

use crate::channel_state::ChannelState;

// A channel after a whole header or a run of payload bytes, and whether the call continues.
// Stays: a flag beside a channel that is there in both cases, so no Option and no Result.
#[derive(Clone, Copy)]
pub struct NextState {
    pub channel: ChannelState,
    pub continues: bool,
}

// The number of the state in which bytes of a payload are to come, after which the channel ends or not.
// Stays: a channel's state is, here and below, the number that a C host holds (transfer::state).
fn payload_number(last: bool) -> u8
    ensures { result ≡ cond last 3 2 }
{
    if last { 3 } else { 2 }
}

// left payload bytes from the place next on are to come, after which the channel ends or not; a channel's end stops the call.
pub fn expect_payload(x: ChannelState, next: u64, left: u64, last: bool) -> NextState
    ensures { (t : Transfer) (c : ℕ) (file claimed doubtful : List ℕ) → HasChannel t c → continues_or_stops result.continues (world (write_back t c result.channel) file claimed doubtful) ≡ expect_payload (world (write_back t c x) file claimed doubtful) c next left last }
{
    if 0 < left {
        NextState {
            channel: x.with_state(payload_number(last), next, left),
            continues: true,
        }
    } else if last {
        NextState {
            channel: x.with_state(4, 0, 0),
            continues: false,
        }
    } else {
        NextState {
            channel: x.with_state(1, 0, 0),
            continues: true,
        }
    }
}
