// A ledger that is known to obey its rule.
ghost use Rattle.std.specs.Prelude.{◌≡◌, true, false, ◌&&◌, MatchOption};
ghost use Rattle.ledger.specs.Pairs.{ends_at_most};
ghost use Rattle.ledger.specs.Ledger.{obeys, pairs_of};

use crate::rule;

#[derive(Clone, Copy)]
pub struct Ruled<'a> {
    pub entries: &'a [u64],
    pub ghost by_rule: { obeys entries.now ≡ true },
}

impl<'a> Ruled<'a> {
    // The ledger, where it obeys its rule with no end above the limit.
    pub fn of(ledger: &'a [u64], limit: u64) -> Option<Ruled<'a>>
        ensures { MatchOption result ((obeys ledger.now && ends_at_most limit (pairs_of ledger.now)) ≡ false) (λ r. (r.entries.now ≡ ledger.now) × (ends_at_most limit (pairs_of ledger.now) ≡ true)) }
    {
        if rule::obeys(ledger, limit) {
            Some(Ruled { entries: ledger })
        } else {
            None
        }
    }
}
