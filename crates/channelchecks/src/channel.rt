// Whether one channel fits: its numbers, its held bytes and the claimed ledger.
ghost use Rattle.std.specs.Prelude.{◌≡◌, length};
ghost use Rattle.ledger.specs.Ledger.{pairs_of};
ghost use Rattle.transfer.specs.Fit.{header_fits, payload_fits, channel_fits};

use crate::held::Held;
use crate::limits;
use ledger::ruled::Ruled;
use rangechecks::search;
use transfer::state::Channel;

// A channel in a header.
#[tactic(auto, unfolding(transfer::specs::Fit::header_fits))]
fn header_fits(k: Channel, held: &Held) -> bool
    requires { length held.now.bytes.now ≡ 16 }
    ensures { result ≡ header_fits k held.now.bytes.now }
{
    let n = usize::from(k.held);
    n <= limits::HELD_LIMIT && held.zero_from(n) && k.next == 0 && k.left == 0
}

// A channel in a payload.
#[tactic(auto, unfolding(transfer::specs::Fit::payload_fits))]
fn payload_fits(k: Channel, held: &Held, ledger: Ruled) -> bool
    ensures { result ≡ payload_fits (pairs_of ledger.entry.entries.now) k held.now.bytes.now }
{
    k.held == 0
        && held.zero_from(0)
        && k.left != 0
        && search::contains_range(ledger.entries, k.next, k.left)
}

// One that is unused or has ended is as in a header of which no byte has come.
// Stays: a channel's state is the number that a C host holds (transfer::state).
pub fn channel_fits(k: Channel, held: &Held, ledger: Ruled) -> bool
    requires { length held.now.bytes.now ≡ 16 }
    ensures { result ≡ channel_fits (pairs_of ledger.entry.entries.now) k.state k held.now.bytes.now }
{
    match k.state {
        0 | 4 => k.held == 0 && header_fits(k, held),
        1 => header_fits(k, held),
        2 | 3 => payload_fits(k, held, ledger),
        _ => false,
    }
}
