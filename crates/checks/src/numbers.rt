// The numbers of a transfer: its pairs, its count and its fault.
ghost use Rattle.std.specs.Prelude.{◌≡◌, ◌&&◌, ◌*◌, leb, eqb};
ghost use Rattle.transfer.specs.declared.state.Transfer.{Transfer};
ghost use Rattle.transfer.specs.Transfer.{used_of};
ghost use Rattle.transfer.specs.Fit.{pair_limit, count_fits, fault_fits};

use counts::count;
use eblock::header;

// The most pairs of a ledger.
const PAIR_LIMIT: u64 = 4096;

// Whether a ledger of so many entries has so many pairs.
pub fn pairs_fit(pairs: u64, entries: usize) -> bool
    ensures { result ≡ (leb pairs pair_limit && eqb entries (2 * pairs)) }
{
    pairs <= PAIR_LIMIT && entries as u64 == 2 * pairs
}

#[tactic(auto, unfolding(transfer::specs::Fit::count_fits))]
pub fn count_fits(count: u64, used: u64) -> bool
    ensures { (t : Transfer) → t.count ≡ count → used_of t ≡ used → result ≡ count_fits t }
{
    count == 0 || (count <= header::COUNT_LIMIT && used <= count)
}

#[tactic(auto, unfolding(transfer::specs::Fit::fault_fits))]
pub fn fault_fits(fault: u64, on: u64) -> bool
    ensures { (t : Transfer) → t.fault ≡ fault → t.on ≡ on → result ≡ fault_fits t }
{
    match fault {
        0 => on == 0,
        11..=19 => on < count::CHANNELS as u64,
        _ => false,
    }
}
