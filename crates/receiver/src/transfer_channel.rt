// A channel read out of its transfer and written back into it.
ghost use Rattle.std.specs.Prelude.{◌≡◌, ◌++◌, ◌+◌, ◌*◌, ◌<◌, length, take, drop};
ghost use Rattle.transfer.specs.Channel.{channel_at};
ghost use Rattle.channels.specs.ChannelState.{channel_state_of, write_back};

use channelchecks::limits::HELD_LIMIT;
use channels::channel_state::ChannelState;
use transfer::state::{Channel, Transfer};

// The 16 bytes that channel c can hold.
// Stays: `c < 64` is a premise of four functions: a type for it would be made at the one call of each and taken apart in each body.
fn bytes_at(heads: &[u8; 1024], c: usize) -> [u8; 16]
    requires { c < 64 }
    ensures { result ≡ take 16 (drop (16 * c) heads.now) }
{
    let mut bytes = [0; 16];
    let at = HELD_LIMIT * c;
    bytes.copy_from_slice(&heads[at..at + HELD_LIMIT]);
    bytes
}

// Channel c of a transfer.
#[tactic(auto, unfolding(channels::specs::ChannelState::channel_state_of))]
pub fn of(t: &Transfer, c: usize) -> ChannelState
    requires { c < 64 }
    ensures { result ≡ channel_state_of t.now.count t.now.fault t.now.on (channel_at t.now c) t.now.heads c }
{
    let Channel {
        state,
        held,
        next,
        left,
    } = t.channels[c];
    ChannelState {
        count: t.count,
        fault: t.fault,
        on: t.on,
        state,
        held,
        next,
        left,
        bytes: bytes_at(&t.heads, c),
    }
}

// The bytes that channel c holds, written over those that it held.
fn put_bytes(heads: &mut [u8; 1024], c: usize, bytes: &[u8; 16])
    requires { c < 64 }
    ensures { heads.new ≡ take (16 * c) heads.old ++ (bytes.now ++ drop (16 * c + 16) heads.old) }
{
    let at = HELD_LIMIT * c;
    heads[at..at + HELD_LIMIT].copy_from_slice(bytes);
}

// What a call left of channel c, written back into the transfer.
pub fn write_back(t: &mut Transfer, c: usize, x: ChannelState)
    requires { c < 64 }
    ensures { t.new ≡ write_back t.old c x }
{
    put_bytes(&mut t.heads, c, &x.bytes);
    t.channels[c] = Channel {
        state: x.state,
        held: x.held,
        next: x.next,
        left: x.left,
    };
    // Stays: three fields set on the lent transfer: made anew by `..*t` the compiler would copy the held bytes again.
    t.count = x.count;
    t.fault = x.fault;
    t.on = x.on;
}
