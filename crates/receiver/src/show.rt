// What a host may ask of a receiver between calls: what the screen line says, as numbers.
ghost use Rattle.std.specs.Prelude.{◌≡◌, true, []};
ghost use Rattle.answers.specs.Refusal.{numbered};
ghost use Rattle.transfer.specs.Transfer.{world, stored_of};
ghost use Rattle.transfer.specs.Fit.{fits_without_file};
ghost use Rattle.receiver.specs.Shown.{shown_of};

use crate::receive::Receiver;
use answers::refusal::Refusal;
use checks::fit;
use counts::count;
use ledger::rule;
use sums::sum;
use transfer::state::Transfer;
use verdicts::verdict;
use verdicts::verdict::Verdict;

// A count of 0 is an unknown one, and a fault of 0 is none.
// Stays: numbers, 0 for none, as the C struct has them that is made of this, and as `shown_of` says them.
#[derive(Clone, Copy, Debug, PartialEq, Eq)]
pub struct Shown {
    pub verdict: Verdict,
    // The channels that have ended.
    pub ended: u64,
    pub count: u64,
    pub fault: u64,
    // The channel of the fault.
    pub on: u64,
    // The payload bytes stored since start.
    pub bytes: u64,
    // How many bytes the doubtful ranges hold.
    pub doubtful: u64,
}

// The claimed bytes less those left in all payloads, of a transfer and ledgers that fit.
fn stored(t: Transfer, claimed: &[u64], doubtful: &[u64]) -> u64
    requires { fits_without_file t claimed.now doubtful.now ≡ true }
    ensures { result ≡ stored_of (world t [] claimed.now doubtful.now) }
{
    let all = rule::total(claimed);
    let left = count::left(t);
    sum::saturating_sub(all, left)
}

impl Receiver {
    // 1 where transfer and ledgers don't fit.
    pub fn shown(self, claimed: &[u64], doubtful: &[u64]) -> Result<Shown, Refusal>
        ensures { numbered result ≡ shown_of self.transfer claimed.now doubtful.now }
    {
        let t = self.transfer;
        let Some(found) = fit::report(t, claimed, doubtful) else {
            return Err(Refusal::Unfit);
        };
        let verdict = verdict::of(t.fault, t.count, found.ended, 0, rule::has_pair(doubtful));
        Ok(Shown {
            verdict,
            ended: found.ended,
            count: t.count,
            fault: t.fault,
            on: t.on,
            bytes: stored(t, claimed, doubtful),
            doubtful: rule::total(doubtful),
        })
    }
}
