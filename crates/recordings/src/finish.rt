// The end of a recording.
ghost use Rattle.std.specs.Prelude.{◌≡◌, length};
ghost use Rattle.answers.specs.Refusal.{numbered};
ghost use Rattle.answers.specs.Written.{room_refusal, written_by, written_after};
ghost use Rattle.recordings.specs.Kept.{finish_text};

use crate::line;
use crate::session::Session;
use answers::refusal::Refusal;
use octets::decimal;

// Writes to the front of the lent bytes what the end of the input adds: RECORD and its number where a record is not whole. 55 where they are too few.
pub fn finish(session: Session, out: &mut [u8]) -> Result<usize, Refusal>
    ensures { (numbered result ≡ written_by (room_refusal (length (finish_text session)) out.old) (length (finish_text session))) × (out.new ≡ written_after (room_refusal (length (finish_text session)) out.old) (finish_text session) out.old) }
{
    if session.stopped || session.held == 0 {
        return Ok(0);
    }
    let number = session.progress.number;
    if out.len() < line::RECORD.len() + decimal::length(number) + 1 {
        return Err(Refusal::TooFewBytes);
    }
    Ok(line::put_number(&line::RECORD, number, out))
}
