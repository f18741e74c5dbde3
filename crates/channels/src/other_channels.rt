// What a call asks of the rest of its transfer.
ghost use Rattle.std.specs.Prelude.{◌≡◌};
ghost use Rattle.channels.specs.OtherChannels.{others_of};

use channelchecks::report::FitReport;
use sums::sum;

// The file's length, and how many of the other channels are not unused and have ended.
#[derive(Clone, Copy)]
pub struct OtherChannels {
    pub len: u64,
    pub used: u64,
    pub ended: u64,
}

// The counts of all channels, less one in that state.
// Stays: a channel's state is the number that a C host holds (transfer::state).
#[tactic(auto, unfolding(crate::specs::OtherChannels::others_of))]
pub fn counts_without(len: u64, found: FitReport, state: u8) -> OtherChannels
    ensures { result ≡ others_of len found state }
{
    OtherChannels {
        len,
        used: sum::saturating_sub(found.used, u64::from(state != 0)),
        ended: sum::saturating_sub(found.ended, u64::from(state == 4)),
    }
}
