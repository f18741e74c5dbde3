// The verdict of a transfer.
ghost use Rattle.std.specs.Prelude.{◌≡◌, cond, not, ◌||◌, List, ℕ, ◌+◌, ◌<◌, ltb, eqb};
ghost use Rattle.transfer.specs.Transfer.{world, guess, result as full_result, suspect, broken, verdict_of};
ghost use Rattle.verdicts.specs.Verdict.{to_verdict, count_reached};

use counts::count::{self, ENDED};
use ledger::rule;
use transfer::state::Transfer;

// The four words of the screen.
#[derive(Clone, Copy, Debug, PartialEq, Eq)]
pub enum Verdict {
    Guess,
    Result,
    Suspect,
    Broken,
}

// Stays: fault and count, 0 for none and for unknown, and state are numbers below, as the C structs cob_transfer and cob_channel have them.

// Whether a count is known and n, the channels that have ended or those that are used, is that count.
pub fn count_reached(count: u64, n: u64) -> bool
    ensures { result ≡ count_reached count n }
{
    count != 0 && n == count
}

// Whether the verdict is GUESS.
pub fn is_guess(fault: u64, count: u64, ended: u64) -> bool
    ensures { result ≡ not (ltb 0 fault || count_reached count ended) }
{
    fault == 0 && !count_reached(count, ended)
}

// The last word, where something is doubtful or not.
fn last_word(doubted: bool) -> Verdict
    ensures { to_verdict result ≡ cond doubted suspect full_result }
{
    if doubted {
        Verdict::Suspect
    } else {
        Verdict::Result
    }
}

// The verdict by the fault, the count, how many channels have ended beside one in that state, and whether something is doubtful.
pub fn of(fault: u64, count: u64, others: u64, state: u8, doubted: bool) -> Verdict
    ensures { to_verdict result ≡ cond (ltb 0 fault) broken (cond (count_reached count (others + cond (eqb state 4) 1 0)) (cond doubted suspect full_result) guess) }
{
    if fault != 0 {
        Verdict::Broken
    } else if count != 0 && others == count - u64::from(state == ENDED) {
        last_word(doubted)
    } else {
        Verdict::Guess
    }
}

// The verdict of a transfer that is lent this doubtful ledger.
pub fn of_transfer(t: Transfer, doubtful: &[u64]) -> Verdict
    ensures { ((file claimed : List ℕ) → to_verdict result ≡ verdict_of (world t file claimed doubtful.now)) }
{
    of(
        t.fault,
        t.count,
        count::ended(t),
        0,
        rule::has_pair(doubtful),
    )
}
