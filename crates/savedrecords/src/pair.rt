// A pair of numbers in the bytes of a record.
ghost use Rattle.std.specs.Prelude.{◌≡◌, ◌-◌, leb, take, drop};
ghost use Rattle.octets.specs.Digits.{from_little_endian};
ghost use Rattle.savedrecords.specs.Kind.{end_of};
ghost use Rattle.savedrecords.specs.Record.{start_in, end_in, may_follow};

use crate::kind::SecondNumber;
use octets::little;
use sums::sum;

// Where a pair starts and how long it is. Its end need not fit 64 bits.
#[derive(Clone, Copy, Debug, PartialEq, Eq)]
pub struct Pair {
    pub start: u64,
    // 0 where it ends at its start or before.
    pub length: u64,
}

impl Pair {
    // The pair that the bytes begin with.
    pub fn first(second: SecondNumber, bytes: &[u8]) -> Pair
        ensures { (result.start ≡ start_in bytes.now) × (result.length ≡ end_in second bytes.now - start_in bytes.now) }
    {
        let start = number_at(bytes, 0);
        let number = number_at(bytes, 8);
        let length = second.length(start, number);
        Pair { start, length }
    }

    // Whether it may come after the one before it; a length of 0 before it says that there is none.
    // Stays: `before` is no Option, since the clause is about every pair before it by its start and length, one of length 0 too.
    pub fn may_follow(self, before: Pair) -> bool
        ensures { result ≡ may_follow before.start before.length self.start self.length }
    {
        self.length != 0
            && (before.length == 0
                || before.start < self.start && before.length < self.start - before.start)
    }
}

impl SecondNumber {
    // The length of a pair from its two numbers.
    fn length(self, start: u64, number: u64) -> u64
        ensures { result ≡ end_of self start number - start }
    {
        match self {
            SecondNumber::End => sum::saturating_sub(number, start),
            SecondNumber::Length => number,
        }
    }

    // Whether the pair of these numbers ends at the limit or before.
    pub fn ends_by(self, start: u64, number: u64, limit: u64) -> bool
        ensures { result ≡ leb (end_of self start number) limit }
    {
        match self {
            SecondNumber::End => number <= limit,
            SecondNumber::Length => sum::sum_at_most(start, number, limit),
        }
    }
}

// The number in the eight bytes from `at` on, or in those of them that are there. Where all are there they are lent as eight, of which the
// compiler makes one load.
#[tactic(auto, unfolding(octets::specs::Digits::from_little_endian))]
pub fn number_at(bytes: &[u8], at: usize) -> u64
    ensures { result ≡ from_little_endian 256 (take 8 (drop at bytes.now)) }
{
    let Some(rest) = bytes.get(at..) else {
        return 0;
    };
    match rest.get(..8) {
        Some(eight) => little::read(eight),
        None => little::read(rest),
    }
}
