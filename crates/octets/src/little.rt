// Numbers in bytes, the least significant byte first.
ghost use Rattle.std.specs.Prelude.{◌≡◌, length, take};
ghost use Rattle.octets.specs.Digits.{from_little_endian, to_little_endian};

use crate::digit_bytes;

// The number that the bytes say, or their first eight where there are more.
pub fn read(bytes: &[u8]) -> u64
    ensures { result ≡ from_little_endian 256 (take 8 bytes.now) }
{
    let first = &bytes[..bytes.len().min(8)];
    let mut n: u64 = 0;
    for &b in first.iter().rev() {
        n = n * 256 + u64::from(b);
    }
    n
}

// Fills all of out with the low bytes of n.
pub fn write(n: u64, out: &mut [u8])
    ensures { out.new ≡ to_little_endian 256 (length out.old) n }
{
    digit_bytes::write::<256, 0>(n, out);
}
