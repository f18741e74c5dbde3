// Ranges given by where they start and how long they are, compared with each other.
ghost use Rattle.std.specs.Prelude.{◌≡◌};
ghost use Rattle.rangechecks.specs.Ranges.{disjoint, disjoint_from, all_disjoint, starts, lengths};

use sums::sum;

// So many places from start on.
#[derive(Clone, Copy, Debug, PartialEq, Eq)]
pub struct Range {
    pub start: u64,
    pub length: u64,
}

impl Range {
    // Whether one of the two ends at or before the start of the other: where neither is empty, they share no place.
    fn is_apart(self, other: Range) -> bool
        ensures { result ≡ disjoint self.start self.length other.start other.length }
    {
        sum::sum_at_most(self.start, self.length, other.start)
            || sum::sum_at_most(other.start, other.length, self.start)
    }

    // The same of this range and each of the others.
    fn is_apart_from(self, others: &[Range]) -> bool
        ensures { result ≡ disjoint_from self.start self.length (starts others.now) (lengths others.now) }
    {
        others.iter().all(|other| self.is_apart(*other))
    }
}

// Whether any two of the ranges are so.
pub fn all_disjoint(ranges: &[Range]) -> bool
    ensures { result ≡ all_disjoint (starts ranges.now) (lengths ranges.now) }
{
    let mut rest = ranges;
    while let [range, after @ ..] = rest {
        if !range.is_apart_from(after) {
            return false;
        }
        rest = after;
    }
    true
}
