// One pass over the channels.
ghost use Rattle.std.specs.Prelude.{◌≡◌, ◌<◌};
ghost use Rattle.ledger.specs.Ledger.{pairs_of};
ghost use Rattle.transfer.specs.Fit.{channels_fit};
ghost use Rattle.channelchecks.specs.ChannelTotals.{with_channel, TotalsAre};

use crate::held::Held;
use crate::{channel, held, limits};
use counts::count;
use ledger::ruled::Ruled;
use rangechecks::disjoint::Range;
use transfer::state::{Channel, Transfer};

#[derive(Clone, Copy)]
pub struct ChannelTotals {
    // The bytes left of each channel that has some, at the front.
    // Stays: fixed memory, no heap.
    pub rests: [Range; 64],
    // How many these are.
    pub payloads: usize,
    // Those not unused.
    pub used: u64,
    // Those that have ended.
    pub ended: u64,
}

impl ChannelTotals {
    // One channel more. A used one is written at the index `payloads`, which moves on only where bytes are left: else the next used one is written
    // over it.
    // Stays: a channel's state is the number that a C host holds (transfer::state).
    fn add(&mut self, k: Channel)
        requires { (self.old.payloads < 64) × (self.old.used < 64) × (self.old.ended < 64) }
        ensures { self.new ≡ with_channel self.old k }
    {
        if k.state != 0 {
            self.rests[self.payloads] = Range {
                start: k.next,
                length: k.left,
            };
            self.payloads += usize::from(k.left != 0);
            self.used += 1;
            self.ended += count::one_if_ended(k);
        }
    }
}

// Each channel is read once; the held bytes all at one go, and channel by channel only where one of them is not 0.
pub fn check_channels(t: Transfer, ledger: Ruled) -> Option<ChannelTotals>
    ensures { TotalsAre (channels_fit (pairs_of ledger.entry.entries.now) t.channels t.heads) t result }
{
    let clean = held::all_zero(&t.heads);
    let mut totals = ChannelTotals {
        rests: [Range {
            start: 0,
            length: 0,
        }; 64],
        payloads: 0,
        used: 0,
        ended: 0,
    };
    for (k, bytes) in t
        .channels
        .iter()
        .zip(t.heads.chunks_exact(limits::HELD_LIMIT))
    {
        let held = Held { bytes, clean };
        if !channel::channel_fits(*k, &held, ledger) {
            return None;
        }
        totals.add(*k);
    }
    Some(totals)
}
