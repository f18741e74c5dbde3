// Start: a fresh transfer, and both ledgers zeroed.
ghost use Rattle.std.specs.Prelude.{◌≡◌};
ghost use Rattle.answers.specs.Refusal.{refusal_number};
ghost use Rattle.transfer.specs.Transfer.{fresh, lengths_wrong, start_refusal, start_of, start_after};

use crate::receive::Receiver;
use answers::refusal::Refusal;
use ledger::rule;
use octets::entries;
use transfer::state::{Channel, Transfer};

// The receiver that start gives, and whether it was refused.
#[derive(Clone, Copy)]
pub struct Started {
    pub receiver: Receiver,
    pub answer: Result<(), Refusal>,
}

// Stays: arrays of fixed length, as the transfer has them, which a C host holds (transfer::state).
#[tactic(auto, unfolding(transfer::specs::Transfer::fresh))]
fn fresh(len: u64, pairs: u64) -> Transfer
    ensures { result ≡ fresh len pairs }
{
    let blank = Channel {
        state: 0,
        held: 0,
        next: 0,
        left: 0,
    };
    Transfer {
        len,
        pairs,
        count: 0,
        fault: 0,
        on: 0,
        heads: [0; 1024],
        channels: [blank; 64],
    }
}

// Whether the claimed ledger's length is odd or above 8,192 entries, or the two lengths differ.
#[tactic(auto, unfolding(transfer::specs::Transfer::lengths_wrong))]
fn lengths_wrong(claimed: &[u64], doubtful: &[u64]) -> bool
    ensures { result ≡ lengths_wrong claimed.now doubtful.now }
{
    rule::length_wrong(claimed) || doubtful.len() != claimed.len()
}

// For a file of len bytes. 5 where the lengths of the ledgers are wrong: both stay as they were, and the transfer is that of no bytes and no
// pairs.
#[tactic(auto, unfolding(transfer::specs::Transfer::start_refusal, transfer::specs::Transfer::start_of, transfer::specs::Transfer::start_after))]
pub fn start(len: u64, claimed: &mut [u64], doubtful: &mut [u64]) -> Started
    ensures { (refusal_number result.answer ≡ start_refusal claimed.old doubtful.old) × (result.receiver.transfer ≡ start_of len claimed.old doubtful.old) × (claimed.new ≡ start_after claimed.old doubtful.old claimed.old) × (doubtful.new ≡ start_after claimed.old doubtful.old doubtful.old) }
{
    if lengths_wrong(claimed, doubtful) {
        return Started {
            receiver: Receiver {
                transfer: fresh(0, 0),
            },
            answer: Err(Refusal::StartLengths),
        };
    }
    let pairs = claimed.len() / 2;
    entries::clear(claimed);
    entries::clear(doubtful);
    Started {
        receiver: Receiver {
            transfer: fresh(len, pairs as u64),
        },
        answer: Ok(()),
    }
}
