// The ledger rule, and how many bytes a ledger holds.
ghost use Rattle.std.specs.Prelude.{◌≡◌, ◌&&◌, suc, ◌%◌, ◌<◌, min, ◌∷◌, leb, eqb, length, get_or, fold, bit_or, MatchOption};
ghost use Rattle.answers.specs.Refusal.{refusal_number};
ghost use Rattle.ledger.specs.Pairs.{total, ends_at_most};
ghost use Rattle.ledger.specs.Ledger.{length_wrong, all_zero, obeys_from, obeys, ledger_refusal, pairs_of, has_pair};

use answers::refusal::Refusal;
use sums::sum;

// The most entries that a ledger may have.
pub const ENTRY_LIMIT: usize = 8192;
// The largest number that an entry can be.
pub const LARGEST: u64 = u64::MAX;

// Whether a ledger has an odd number of entries, or too many: refusal 53.
#[tactic(auto, unfolding(crate::specs::Ledger::length_wrong))]
pub fn length_wrong(ledger: &[u64]) -> bool
    ensures { result ≡ length_wrong ledger.now }
{
    ledger.len() % 2 != 0 || ENTRY_LIMIT < ledger.len()
}

// The bits of all entries, joined.
fn joined(entries: &[u64]) -> u64
    ensures { result ≡ fold bit_or 0 entries.now }
{
    entries.iter().fold(0, |any: u64, entry| any | *entry)
}

// Whether the entries are all 0. It reads them all, by 64, so that the compiler can make vector code of it.
// Stays: channelchecks asks this of bytes; one function of both widths would need a trait with the laws of `|` and 0 for one line there.
fn all_zero(entries: &[u64]) -> bool
    ensures { result ≡ all_zero entries.now }
{
    let (blocks, rest) = entries.as_chunks::<64>();
    let any = blocks.iter().fold(0, |any: u64, block| any | joined(block));
    (any | joined(rest)) == 0
}

// Whether the entries are all 0 and make whole pairs.
fn zero_pairs(entries: &[u64]) -> bool
    ensures { result ≡ (all_zero entries.now && eqb (length entries.now % 2) 0) }
{
    all_zero(entries) && entries.len() % 2 == 0
}

// The first pair, start and end, and the entries after it, where that pair is used.
pub fn first_pair(ledger: &[u64]) -> Option<(u64, u64, &[u64])>
    ensures { MatchOption result (get_or ledger.now 1 0 ≡ 0) (λ p. (0 < p.1) × (ledger.now ≡ p.0 ∷ p.1 ∷ p.2.now)) }
{
    match ledger {
        [start, end, after @ ..] if 0 < *end => Some((*start, *end, after)),
        _ => None,
    }
}

// Whether the ledger has a used pair: the first is used, or none is.
#[tactic(auto, unfolding(crate::specs::Ledger::has_pair))]
pub fn has_pair(ledger: &[u64]) -> bool
    ensures { result ≡ has_pair ledger.now }
{
    first_pair(ledger).is_some()
}

// Whether these pairs obey the rule after one that ends at `first`, and no end is above the limit, that one included. Ends that obey the rule
// rise, so that the last one tells.
fn obeys_after(pairs: &[u64], first: u64, limit: u64) -> bool
    ensures { result ≡ (leb first limit && (obeys_from (suc first) pairs.now && ends_at_most limit (pairs_of pairs.now))) }
{
    let mut last = first;
    let mut rest = pairs;
    while let Some((start, end, after)) = first_pair(rest) {
        if start <= last || end <= start {
            return false;
        }
        last = end;
        rest = after;
    }
    last <= limit && zero_pairs(rest)
}

// Whether the ledger obeys its rule with no end above the limit.
pub fn obeys(ledger: &[u64], limit: u64) -> bool
    ensures { result ≡ (obeys ledger.now && ends_at_most limit (pairs_of ledger.now)) }
{
    match first_pair(ledger) {
        Some((start, end, after)) => start < end && obeys_after(after, end, limit),
        None => zero_pairs(ledger),
    }
}

// Refuses a ledger that is not to be written: by its length, then by its rule.
#[tactic(auto, using(crate::proofs::LedgerSizes::only_ruled), unfolding(crate::specs::Ledger::ledger_refusal))]
pub fn check(ledger: &[u64]) -> Result<(), Refusal>
    ensures { refusal_number result ≡ ledger_refusal ledger.now }
{
    if length_wrong(ledger) {
        return Err(Refusal::LedgerLength);
    }
    if !obeys(ledger, LARGEST) {
        return Err(Refusal::Unfit);
    }
    Ok(())
}

// How many bytes the used pairs hold, or the largest number where that is more, which a ledger that obeys its rule never has.
pub fn total(ledger: &[u64]) -> u64
    ensures { result ≡ min 18446744073709551615 (total (pairs_of ledger.now)) }
{
    let mut total: u64 = 0;
    let mut rest = ledger;
    while let Some((start, end, after)) = first_pair(rest) {
        total = sum::saturating_add(total, sum::saturating_sub(end, start));
        rest = after;
    }
    total
}
