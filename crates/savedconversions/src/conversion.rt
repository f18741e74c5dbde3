// A saved ledger of kind 1 as one of kind 2, and back: from lent bytes into lent bytes.
ghost use Rattle.std.specs.Prelude.{◌≡◌, true, ◌++◌, ◌+◌, ◌/◌, ◌%◌, ◌≤◌, ◌<◌, length, drop};
ghost use Rattle.octets.specs.Digits.{to_little_endian};
ghost use Rattle.answers.specs.Refusal.{numbered};
ghost use Rattle.frames.specs.Frame.{frame_of};
ghost use Rattle.ledger.specs.Pairs.{ObeyFrom, ends_at_most};
ghost use Rattle.savedrecords.specs.Kind.{head_length, second_of};
ghost use Rattle.savedrecords.specs.Record.{pairs_in, pair_bytes};
ghost use Rattle.savedconversions.specs.Conversion.{convert, convert_after, to_two, to_two_after, to_one, to_one_after};

use answers::refusal::Refusal;
use frames::frame;
use frames::frame::FRAME_LENGTH;
use octets::little;
use savedrecords::kind::{Kind, SecondNumber};
use savedrecords::pair::Pair;
use savedrecords::record;
use savedrecords::record::PAIR_LENGTH;

// The second number of a pair, whose end fits 64 bits.
fn second_of(second: SecondNumber, pair: Pair) -> u64
    requires { pair.start + pair.length ≤ 18446744073709551615 }
    ensures { result ≡ second_of second pair.start (pair.start + pair.length) }
{
    match second {
        SecondNumber::End => pair.start + pair.length,
        SecondNumber::Length => pair.length,
    }
}

// Writes the two numbers of a pair.
fn write_pair(second: SecondNumber, pair: Pair, out: &mut [u8])
    requires { (length out.old ≡ 16) × (pair.start + pair.length ≤ 18446744073709551615) }
    ensures { out.new ≡ to_little_endian 256 8 pair.start ++ to_little_endian 256 8 (second_of second pair.start (pair.start + pair.length)) }
{
    let number = second_of(second, pair);
    little::write(pair.start, &mut out[..8]);
    little::write(number, &mut out[8..16]);
}

// Writes all pairs, read as those of one kind, as those of another.
// Stays: by index. Over `chunks_exact_mut` goal `returns` stayed open, `c.out-1.given.0 ≡ pair_bytes ..`: no fact names that value.
fn write_pairs(from: SecondNumber, to: SecondNumber, pairs: &[u8], out: &mut [u8])
    requires { (length pairs.now % 16 ≡ 0) × (length out.old ≡ length pairs.now) × ObeyFrom 0 (pairs_in from (length pairs.now / 16) pairs.now) × (ends_at_most 18446744073709551615 (pairs_in from (length pairs.now / 16) pairs.now) ≡ true) }
    ensures { out.new ≡ pair_bytes to (pairs_in from (length pairs.now / 16) pairs.now) }
{
    for (k, bytes) in pairs.chunks_exact(PAIR_LENGTH).enumerate() {
        let at = PAIR_LENGTH * k;
        let next = Pair::first(from, bytes);
        write_pair(to, next, &mut out[at..at + PAIR_LENGTH]);
    }
}

// Writes all that comes before the pairs of a record, which are n bytes.
fn write_head(kind: Kind, len: u64, n: usize, out: &mut [u8])
    requires { (6 + head_length kind ≤ length out.old) × (head_length kind + n < 4294967294) }
    ensures { out.new ≡ (frame_of kind.number (head_length kind + n) ++ to_little_endian 256 (head_length kind) len) ++ drop (6 + head_length kind) out.old }
{
    let head = kind.head_length();
    let body = head + n;
    frame::write(kind.number, body as u32, out).unwrap();
    let start = FRAME_LENGTH + head;
    little::write(len, &mut out[FRAME_LENGTH..start]);
}

// A record of the kind `from`, for a file of this length, as one of the kind `to`. A refusal leaves the lent bytes as they are.
fn convert(from: Kind, to: Kind, len: u64, bytes: &[u8], out: &mut [u8]) -> Result<usize, Refusal>
    ensures { (numbered result ≡ convert from to len bytes.now out.old) × (out.new ≡ convert_after from to len bytes.now out.old) }
{
    record::check(from, bytes)?;
    if !record::ends_by(from, bytes, len) {
        return Err(Refusal::PastFileLength);
    }
    let pairs = record::pair_part(from, bytes);
    let n = pairs.len();
    let start = FRAME_LENGTH + to.head_length();
    let end = start + n;
    if out.len() < end {
        return Err(Refusal::TooFewBytes);
    }
    write_head(to, len, n, out);
    write_pairs(from.second, to.second, pairs, &mut out[start..end]);
    Ok(end)
}

// Kind 1 as kind 2, for a file of this length.
pub fn to_two(len: u64, bytes: &[u8], out: &mut [u8]) -> Result<usize, Refusal>
    ensures { (numbered result ≡ to_two len bytes.now out.old) × (out.new ≡ to_two_after len bytes.now out.old) }
{
    convert(Kind::ONE, Kind::TWO, len, bytes, out)
}

// Kind 2 as kind 1, by the file length that it has.
pub fn to_one(bytes: &[u8], out: &mut [u8]) -> Result<usize, Refusal>
    ensures { (numbered result ≡ to_one bytes.now out.old) × (out.new ≡ to_one_after bytes.now out.old) }
{
    convert(Kind::TWO, Kind::ONE, record::file_length(bytes), bytes, out)
}
