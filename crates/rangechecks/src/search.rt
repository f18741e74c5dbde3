// A range looked for in a ledger.
ghost use Rattle.std.specs.Prelude.{◌≡◌, true, ◌&&◌, ◌+◌, ◌*◌, ◌<◌, leb, ltb, length, get_or};
ghost use Rattle.ledger.specs.Pairs.{inside};
ghost use Rattle.ledger.specs.Ledger.{obeys, pairs_of};

use ledger::place;

// Whether the pair with the number i is used and starts at the place or before it. A pair past the last is not used.
// Stays: a pair's two entries by index, as in claims `shares` and ledger `ends_below`: an Option of the two would be made for one test in each.
pub fn pair_starts_by(ledger: &[u64], i: usize, place: u64) -> bool
    ensures { result ≡ (ltb 0 (get_or ledger.now (2 * i + 1) 0) && leb (get_or ledger.now (2 * i) 0) place) }
{
    i < ledger.len() / 2 && 0 < ledger[2 * i + 1] && ledger[2 * i] <= place
}

// Whether the ledger has a pair, and the places from start up to end lie inside the first.
fn first_holds(ledger: &[u64], start: u64, end: u64) -> bool
    ensures { result ≡ (leb 2 (length ledger.now) && (leb (get_or ledger.now 0 0) start && leb end (get_or ledger.now 1 0))) }
{
    matches!(ledger, [first, last, ..] if *first <= start && end <= *last)
}

// Whether the places from start up to end lie inside one pair. The first pair is asked before the others, since most of a file that arrives in
// order is there; among all, the first that does not end below end has to start by start.
#[tactic(auto, using(crate::proofs::RangeInside::by_place, crate::proofs::RangeInside::by_first))]
fn inside(ledger: &[u64], start: u64, end: u64) -> bool
    ensures { start < end → obeys ledger.now ≡ true → result ≡ inside start end (pairs_of ledger.now) }
{
    first_holds(ledger, start, end) || pair_starts_by(ledger, place::find(ledger, end).at, start)
}

// Whether so many places from start on lie inside one pair. No entry is above the largest number, so places that end past it lie in none.
// For a ledger that breaks the rule, or no places, the answer is left open.
// Stays: that the ledger obeys its rule is a premise, here and of `inside`, and no type: docs/PROMISES.md names contains_range, which answers any list.
pub fn contains_range(ledger: &[u64], start: u64, length: u64) -> bool
    ensures { 0 < length → obeys ledger.now ≡ true → result ≡ inside start (start + length) (pairs_of ledger.now) }
{
    match start.checked_add(length) {
        Some(end) => inside(ledger, start, end),
        None => false,
    }
}
