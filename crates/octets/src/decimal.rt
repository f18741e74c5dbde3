// Numbers in decimal digits, the most significant digit first.
ghost use Rattle.std.specs.Prelude.{◌≡◌, length};
ghost use Rattle.octets.specs.Decimal.{digit_count, in_digits, read_of};

use crate::digit_bytes;
use texts::text::{ByteKind, is_of_kind};

// The number that the whole text says, at any length: None where the text is empty, has a byte that is no digit, or says more than the limit.
pub fn read(text: &[u8], limit: u64) -> Option<u64>
    ensures { result ≡ read_of text.now limit }
{
    if text.is_empty() {
        return None;
    }
    let mut n: u64 = 0;
    for &b in text {
        if !is_of_kind(ByteKind::Digit, b) {
            return None;
        }
        n = n.checked_mul(10)?.checked_add(u64::from(b - b'0'))?;
    }
    if n <= limit { Some(n) } else { None }
}

// How many digits n has without leading zeros.
#[tactic(auto, using(crate::proofs::Decimals::width_small, crate::proofs::Decimals::width_of_log))]
pub fn length(n: u64) -> usize
    ensures { result ≡ digit_count n }
{
    if n < 10 { 1 } else { n.ilog10() as usize + 1 }
}

// Fills all of out with the low digits of n: with as many bytes as `length` says, n without leading zeros.
#[tactic(auto, unfolding(crate::specs::Decimal::in_digits))]
pub fn write(n: u64, out: &mut [u8])
    ensures { out.new ≡ in_digits (length out.old) n }
{
    digit_bytes::write_from_end::<10, 48>(n, out);
}
