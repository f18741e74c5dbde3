// Numbers written digit by digit, to any base whose digits are bytes.
ghost use Rattle.std.specs.Prelude.{◌≡◌, ◌+◌, ◌/◌, ◌%◌, ◌≤◌, ◌<◌, length, map};
ghost use Rattle.octets.specs.Digits.{to_big_endian, to_little_endian};

// The byte of the last digit of a number, which loses that digit.
fn last_digit<const BASE: u64, const ZERO: u64>(rest: &mut u64) -> u8
    requires base { 0 < BASE }
    requires bytes { BASE + ZERO ≤ 256 }
    ensures { (result ≡ ZERO + rest.old % BASE) × (rest.new ≡ rest.old / BASE) }
{
    let digit = (ZERO + *rest % BASE) as u8;
    *rest /= BASE;
    digit
}

// Fills all of out with the low digits of n to the base, the least significant first, each as the byte that is ZERO more than it.
pub fn write<const BASE: u64, const ZERO: u64>(n: u64, out: &mut [u8])
    requires base { 0 < BASE }
    requires bytes { BASE + ZERO ≤ 256 }
    ensures { out.new ≡ map (λ d. ZERO + d) (to_little_endian BASE (length out.old) n) }
{
    let mut rest = n;
    for byte in out.iter_mut() {
        *byte = last_digit::<BASE, ZERO>(&mut rest);
    }
}

// The same, the most significant first.
// Stays: places, and not `out.iter_mut().rev()`, after which no proof knows the bytes; `out.reverse()` after `write` would be a second pass.
pub fn write_from_end<const BASE: u64, const ZERO: u64>(n: u64, out: &mut [u8])
    requires base { 0 < BASE }
    requires bytes { BASE + ZERO ≤ 256 }
    ensures { out.new ≡ map (λ d. ZERO + d) (to_big_endian BASE (length out.old) n) }
{
    let mut rest = n;
    for at in (0..out.len()).rev() {
        out[at] = last_digit::<BASE, ZERO>(&mut rest);
    }
}
