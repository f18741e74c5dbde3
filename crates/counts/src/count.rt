// Counts over the 64 channels of a transfer.
ghost use Rattle.std.specs.Prelude.{◌≡◌, min};
ghost use Rattle.transfer.specs.Transfer.{one_if_ended, ended_of, left_of};

use sums::sum;
use transfer::state::{Channel, Transfer};

// How many channels a transfer has; `ended` and `left` read so many.
pub const CHANNELS: usize = 64;

// The state of a channel that has ended.
// Stays: a number and no enum, as the field `state` of the C struct cob_channel (here Channel) is.
pub const ENDED: u8 = 4;

// 1 for a channel that has ended.
pub fn one_if_ended(k: Channel) -> u64
    ensures { result ≡ one_if_ended k }
{
    u64::from(k.state == ENDED)
}

// How many have ended.
pub fn ended(t: Transfer) -> u64
    ensures { result ≡ ended_of t }
{
    t.channels[..CHANNELS]
        .iter()
        .map(|k| one_if_ended(*k))
        .sum()
}

// The bytes left in all payloads, or the largest number where there are more.
pub fn left(t: Transfer) -> u64
    ensures { result ≡ min 18446744073709551615 (left_of t) }
{
    t.channels[..CHANNELS]
        .iter()
        .fold(0, |n: u64, k| sum::saturating_add(n, k.left))
}
