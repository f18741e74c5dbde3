// Lists of entries.
ghost use Rattle.std.specs.Prelude.{◌≡◌, length, replicate};

// Puts 0 into every entry.
// Stays: `fill(0)` as a function of this repository's own: docs/PROMISES.md names its contract, and the edits clear_by_one and clear_leaves_the_first
// are of it.
pub fn clear(entries: &mut [u64])
    ensures { entries.new ≡ replicate (length entries.old) 0 }
{
    entries.fill(0);
}
