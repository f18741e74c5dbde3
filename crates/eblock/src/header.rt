// The 17-byte header, read and written.
ghost use Rattle.std.specs.Prelude.{◌≡◌};
ghost use Rattle.answers.specs.Refusal.{numbered, refusal_number};
ghost use Rattle.eblock.specs.Header.{refusal_of, read_of, second_field, write_of, write_after};

use crate::descriptor::{self, EODC, has};
use answers::refusal::Refusal;
use octets::big;

pub const HEADER_LENGTH: usize = 17;
// The largest number of end markers that a sender may announce.
pub const COUNT_LIMIT: u64 = 64;

// What 17 bytes say.
#[derive(Clone, Copy, Debug, PartialEq, Eq)]
pub enum Header {
    Data {
        descriptor: u8,
        length: u64,
        offset: u64,
    },
    Eodc {
        descriptor: u8,
        count: u64,
    },
}

// What reader and writer ask of a descriptor and a third field.
#[tactic(auto, unfolding(crate::specs::Header::refusal_of, answers::specs::Written::first_refusal))]
fn accept(d: u8, third: u64) -> Result<(), Refusal>
    ensures { refusal_number result ≡ refusal_of d third }
{
    descriptor::accept(d)?;
    if has(EODC, d) && (third == 0 || COUNT_LIMIT < third) {
        return Err(Refusal::CountOutOfRange);
    }
    Ok(())
}

#[tactic(auto, unfolding(crate::specs::Header::read_of, crate::specs::Header::second_of, crate::specs::Header::third_of))]
pub fn read(bytes: &[u8]) -> Result<Header, Refusal>
    ensures { numbered result ≡ read_of bytes.now }
{
    if bytes.len() != HEADER_LENGTH {
        return Err(Refusal::HeaderLength);
    }
    let descriptor = bytes[0];
    let third = big::read(&bytes[9..17]);
    accept(descriptor, third)?;
    if has(EODC, descriptor) {
        return Ok(Header::Eodc {
            descriptor,
            count: third,
        });
    }
    let second = big::read(&bytes[1..9]);
    Ok(Header::Data {
        descriptor,
        length: second,
        offset: third,
    })
}

// What the second field of a header holds: the length, or 0 with EODC, where it is unused.
#[tactic(auto, unfolding(crate::specs::Header::second_field))]
fn second_field(d: u8, length: u64) -> u64
    ensures { result ≡ second_field d length }
{
    if has(EODC, d) { 0 } else { length }
}

// Writes a header into the first 17 bytes of out, and answers how many these are. third is the offset, or n with EODC.
pub fn write(d: u8, length: u64, third: u64, out: &mut [u8]) -> Result<usize, Refusal>
    ensures { (numbered result ≡ write_of d third out.old) × (out.new ≡ write_after d length third out.old) }
{
    accept(d, third)?;
    if out.len() < HEADER_LENGTH {
        return Err(Refusal::TooFewBytes);
    }
    out[0] = d;
    let second = second_field(d, length);
    big::write(second, &mut out[1..9]);
    big::write(third, &mut out[9..17]);
    Ok(HEADER_LENGTH)
}
