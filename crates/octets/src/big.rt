// Numbers in bytes, the most significant byte first.
ghost use Rattle.std.specs.Prelude.{◌≡◌, length, take};
ghost use Rattle.octets.specs.Digits.{from_big_endian, to_big_endian};

use crate::digit_bytes;

// The number that the bytes say, or their first eight where there are more.
// Stays: three lines that `little::read` has too, in the other direction; a parameter for the direction would be no plainer.
pub fn read(bytes: &[u8]) -> u64
    ensures { result ≡ from_big_endian 256 (take 8 bytes.now) }
{
    let first = &bytes[..bytes.len().min(8)];
    let mut n: u64 = 0;
    for &b in first {
        n = n * 256 + u64::from(b);
    }
    n
}

// Fills all of out with the low bytes of n.
pub fn write(n: u64, out: &mut [u8])
    ensures { out.new ≡ to_big_endian 256 (length out.old) n }
{
    digit_bytes::write_from_end::<256, 0>(n, out);
}
