// Whether the pairs of one ledger lie inside those of another. Both are gone over once: no place is returned to.
ghost use Rattle.std.specs.Prelude.{◌≡◌, true};
ghost use Rattle.ledger.specs.Pairs.{all_inside};
ghost use Rattle.ledger.specs.Ledger.{obeys, pairs_of};
ghost use Rattle.rangechecks.specs.Nested.{reaching};

use ledger::rule;

// The entries from the first used pair on that does not end below the place, or those that are left after all used ones.
#[tactic(auto, using(crate::proofs::NestedWalk::reaching_steps))]
fn reaching(ledger: &[u64], place: u64) -> &[u64]
    ensures { pairs_of result.now ≡ reaching place (pairs_of ledger.now) }
{
    let mut rest = ledger;
    while let Some((_, end, after)) = rule::first_pair(rest) {
        if place <= end {
            break;
        }
        rest = after;
    }
    rest
}

// Whether each pair of the inner ledger lies inside a pair of the outer one. For ledgers that break the rule the answer is left open.
// Stays: that both obey the rule is a premise and no type, since docs/DECISIONS.md names this function, which answers for any ledgers.
pub fn all_inside(inner: &[u64], outer: &[u64]) -> bool
    ensures { obeys inner.now ≡ true → obeys outer.now ≡ true → result ≡ all_inside (pairs_of inner.now) (pairs_of outer.now) }
{
    let mut left = inner;
    let mut around = outer;
    while let Some((start, end, after)) = rule::first_pair(left) {
        around = reaching(around, end);
        let Some((from, _, _)) = rule::first_pair(around) else {
            return false;
        };
        if start < from {
            return false;
        }
        left = after;
    }
    true
}
