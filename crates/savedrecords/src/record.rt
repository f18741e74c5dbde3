// The record of a saved ledger: its parts, and why it is refused.
ghost use Rattle.std.specs.Prelude.{◌≡◌, ◌/◌, leb, length};
ghost use Rattle.answers.specs.Refusal.{refusal_number};
ghost use Rattle.ledger.specs.Pairs.{obey_from};
ghost use Rattle.savedrecords.specs.Record.{frame_refusal, pair_length, pairs_in, pair_part, saved_pairs, file_length_of, record_refusal, last_end};

use crate::kind::{Kind, SecondNumber};
use crate::pair;
use crate::pair::Pair;
use answers::refusal::Refusal;
use frames::frame;
use frames::frame::{FIELD_LENGTH, FRAME_LENGTH};

pub const PAIR_LENGTH: usize = 16;

// Refuses a wrong frame of a record that is to be of this kind.
#[tactic(auto, unfolding(crate::specs::Record::frame_refusal))]
fn check_frame(number: u16, bytes: &[u8]) -> Result<(), Refusal>
    ensures { refusal_number result ≡ frame_refusal number bytes.now }
{
    if bytes.len() < FRAME_LENGTH {
        return Err(Refusal::RecordLength);
    }
    let follow = bytes.len() - FIELD_LENGTH;
    if frame::length_field(bytes) != follow as u64 {
        return Err(Refusal::RecordLength);
    }
    if frame::kind(bytes) != u64::from(number) {
        return Err(Refusal::RecordKind);
    }
    Ok(())
}

// The bytes after the frame and the file length.
// Stays: kind and bytes as two parameters, since of a struct with lent bytes each clause would say `self.entry.kind` and `self.entry.bytes.now`.
pub fn pair_part(kind: Kind, bytes: &[u8]) -> &[u8]
    ensures { result.now ≡ pair_part kind bytes.now }
{
    let from = FRAME_LENGTH + kind.head_length();
    &bytes[from.min(bytes.len())..]
}

// Whether the pairs obey the ledger rule, all of them used.
fn in_order(second: SecondNumber, pairs: &[u8]) -> bool
    ensures { result ≡ obey_from 0 (pairs_in second (length pairs.now / pair_length) pairs.now) }
{
    // There is none before the first, as Pair::may_follow reads it.
    let mut before = Pair {
        start: 0,
        length: 0,
    };
    for bytes in pairs.chunks_exact(PAIR_LENGTH) {
        let next = Pair::first(second, bytes);
        if !next.may_follow(before) {
            return false;
        }
        before = next;
    }
    true
}

// Refuses what is no record of this kind, by its frame or by its body.
#[tactic(auto, unfolding(crate::specs::Record::record_refusal, crate::specs::Record::body_wrong, answers::specs::Written::first_refusal), using(answers::proofs::Numbers::above_0, crate::proofs::RecordFrame::frame_sound))]
pub fn check(kind: Kind, bytes: &[u8]) -> Result<(), Refusal>
    ensures { refusal_number result ≡ record_refusal kind bytes.now }
{
    check_frame(kind.number, bytes)?;
    if bytes.len() - FRAME_LENGTH < kind.head_length() {
        return Err(Refusal::RecordPairs);
    }
    let pairs = pair_part(kind, bytes);
    if pairs.len() % PAIR_LENGTH != 0 || !in_order(kind.second, pairs) {
        return Err(Refusal::RecordPairs);
    }
    Ok(())
}

// The file length that the body begins with.
#[tactic(auto, unfolding(crate::specs::Record::file_length_of))]
pub fn file_length(bytes: &[u8]) -> u64
    ensures { result ≡ file_length_of bytes.now }
{
    pair::number_at(bytes, FRAME_LENGTH)
}

// Whether the last pair ends at the limit or before; with no pair it does.
pub fn ends_by(kind: Kind, bytes: &[u8], limit: u64) -> bool
    ensures { result ≡ leb (last_end (saved_pairs kind bytes.now)) limit }
{
    match pair_part(kind, bytes).chunks_exact(PAIR_LENGTH).next_back() {
        Some(last) => kind
            .second
            .ends_by(pair::number_at(last, 0), pair::number_at(last, 8), limit),
        None => true,
    }
}
