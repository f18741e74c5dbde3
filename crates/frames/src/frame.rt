// The frame of a record: a four-byte length of all that follows it, a two-byte kind and a body.
ghost use Rattle.std.specs.Prelude.{◌≡◌};
ghost use Rattle.answers.specs.Refusal.{numbered};
ghost use Rattle.answers.specs.Written.{room_refusal, written_by, written_after};
ghost use Rattle.frames.specs.Frame.{frame_length, length_field, kind_of, frame_of, record_length, first_record};

use answers::refusal::Refusal;
use octets::little;

// The length field's own bytes.
pub const FIELD_LENGTH: usize = 4;

// The length field and the kind, which are before the body of every kind.
pub const FRAME_LENGTH: usize = 6;

// The record that bytes begin with. Whole has the record's length, the length field's four bytes counted.
// Stays: own cases, not an Option or a Result, since callers tell the four apart: the end, a rest, a refusal and a record.
#[derive(Clone, Copy, Debug, PartialEq, Eq)]
pub enum First {
    Nothing,
    Cut,
    TooLong,
    Whole(usize),
}

// How many bytes follow the length field, as it says.
pub fn length_field(bytes: &[u8]) -> u64
    ensures { result ≡ length_field bytes.now }
{
    little::read(&bytes[..FIELD_LENGTH.min(bytes.len())])
}

pub fn kind(bytes: &[u8]) -> u64
    ensures { result ≡ kind_of bytes.now }
{
    let from = FIELD_LENGTH.min(bytes.len());
    let to = FRAME_LENGTH.min(bytes.len());
    little::read(&bytes[from..to])
}

// How many bytes the record has that begins so, as far as they tell: four until the length field is there.
#[tactic(auto, unfolding(crate::specs::Frame::record_length))]
pub fn record_length(bytes: &[u8]) -> usize
    ensures { result ≡ record_length bytes.now }
{
    if bytes.len() < FIELD_LENGTH {
        FIELD_LENGTH
    } else {
        FIELD_LENGTH + length_field(bytes) as usize
    }
}

// The record that the bytes begin with; its length field may say at most `limit`.
#[tactic(auto, unfolding(crate::specs::Frame::first_record))]
pub fn first_record(bytes: &[u8], limit: u64) -> First
    ensures { result ≡ first_record limit bytes.now }
{
    if bytes.is_empty() {
        return First::Nothing;
    }
    if FIELD_LENGTH <= bytes.len() && limit < length_field(bytes) {
        return First::TooLong;
    }
    let n = record_length(bytes);
    if bytes.len() < n {
        return First::Cut;
    }
    First::Whole(n)
}

// Writes the length field and the kind of a record whose body has n bytes into the first six of the lent bytes. The field can say up to 4,294,967,293
// bytes of body; above that it has the low four bytes.
#[tactic(auto, unfolding(answers::specs::Written::room_refusal, answers::specs::Written::written_by, answers::specs::Written::written_after))]
pub fn write(kind: u16, n: u32, out: &mut [u8]) -> Result<usize, Refusal>
    ensures { (numbered result ≡ written_by (room_refusal frame_length out.old) frame_length) × (out.new ≡ written_after (room_refusal frame_length out.old) (frame_of kind n) out.old) }
{
    if out.len() < FRAME_LENGTH {
        return Err(Refusal::TooFewBytes);
    }
    little::write(2 + u64::from(n), &mut out[..FIELD_LENGTH]);
    little::write(u64::from(kind), &mut out[FIELD_LENGTH..FRAME_LENGTH]);
    Ok(FRAME_LENGTH)
}
