// Moving the entries of a ledger, each at most once.
ghost use Rattle.std.specs.Prelude.{◌≡◌, ◌+◌, ◌≤◌, length};
ghost use Rattle.claims.specs.Shift.{inserted, closed};

use octets::entries;

// Makes room for a pair and puts it there; the two entries from end on are given up.
//
//     .. at ..... end _ _ ..        ..  a b  at ..... ..
pub fn insert(ledger: &mut [u64], at: usize, end: usize, a: u64, b: u64)
    requires { (at ≤ end) × (end + 2 ≤ length ledger.old) }
    ensures { ledger.new ≡ inserted ledger.old at end a b }
{
    ledger.copy_within(at..end, at + 2);
    ledger[at] = a;
    ledger[at + 1] = b;
}

// Removes the entries at `to` up to `from`, that not counted: those from `from` up to end move down to `to`, and zeros fill what they left.
//
//     before: .. to ++ from ..... end ..        after: .. to from ..... 0 0 end ..
pub fn close(ledger: &mut [u64], to: usize, from: usize, end: usize)
    requires { (to ≤ from) × (from ≤ end) × (end ≤ length ledger.old) }
    ensures { ledger.new ≡ closed ledger.old to from end }
{
    ledger.copy_within(from..end, to);
    entries::clear(&mut ledger[to + (end - from)..end]);
}
