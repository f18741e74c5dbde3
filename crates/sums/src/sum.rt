// Sums and differences that a u64 may not hold.
ghost use Rattle.std.specs.Prelude.{◌≡◌, ◌+◌, ◌-◌, min, leb};

// Stays: what u64's methods do, as functions of this repository's own: docs/PROMISES.md names their contracts, and the edits saturating_add_past_largest,
// saturating_sub_turned and sum_at_most_less are of them.

// a + b, or the largest number where that is more.
pub fn saturating_add(a: u64, b: u64) -> u64
    ensures { result ≡ min 18446744073709551615 (a + b) }
{
    a.saturating_add(b)
}

// a - b, or 0 where b is more.
pub fn saturating_sub(a: u64, b: u64) -> u64
    ensures { result ≡ a - b }
{
    a.saturating_sub(b)
}

// Whether a + x is at most b.
pub fn sum_at_most(a: u64, x: u64, b: u64) -> bool
    ensures { result ≡ leb (a + x) b }
{
    a <= b && x <= b - a
}
