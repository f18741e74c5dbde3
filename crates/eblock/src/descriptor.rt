// The descriptor: the first byte of a header.
ghost use Rattle.std.specs.Prelude.{◌≡◌};
ghost use Rattle.answers.specs.Refusal.{refusal_number};
ghost use Rattle.eblock.specs.Descriptor.{has, closes_early, suspects_count, fault_of};

use answers::refusal::Refusal;

// The six bits that have a meaning.
// Stays: bits of a byte and no enum, since the contract of `has` and the theorem `Table` speak of every byte.
pub const END_OF_RECORD: u8 = 128;

pub const EODC: u8 = 64;

pub const SUSPECTED: u8 = 32;

pub const RESTART_MARKER: u8 = 16;

pub const END_OF_DATA: u8 = 8;

pub const SENDER_CLOSES: u8 = 4;

// Whether the bit of that weight is set; of weight 0, no bit is.
#[tactic(auto, unfolding(crate::specs::Descriptor::has))]
pub fn has(bit: u8, d: u8) -> bool
    ensures { result ≡ has bit d }
{
    bit != 0 && d / bit % 2 == 1
}

fn closes_early(d: u8) -> bool
    ensures { result ≡ closes_early d }
{
    has(SENDER_CLOSES, d) && !has(END_OF_DATA, d)
}

fn suspects_count(d: u8) -> bool
    ensures { result ≡ suspects_count d }
{
    has(EODC, d) && has(SUSPECTED, d)
}

// Whether a descriptor is accepted, and by which fault it is not.
#[tactic(auto, unfolding(crate::specs::Descriptor::fault_of))]
pub fn accept(d: u8) -> Result<(), Refusal>
    ensures { refusal_number result ≡ fault_of d }
{
    if has(1, d) || has(2, d) {
        return Err(Refusal::MeaninglessBit);
    }
    if has(END_OF_RECORD, d) || has(RESTART_MARKER, d) {
        return Err(Refusal::UnacceptedBit);
    }
    if closes_early(d) || suspects_count(d) {
        return Err(Refusal::ContradictingBits);
    }
    Ok(())
}
