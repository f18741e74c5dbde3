// A chunk of a recording: what it prints, into lent bytes.
ghost use Rattle.std.specs.Prelude.{◌≡◌, false, ℕ, ◌+◌, ◌*◌, ◌≤◌, List, length, take};
ghost use Rattle.answers.specs.Refusal.{numbered, refusal_number};
ghost use Rattle.answers.specs.Written.{written_by, written_after};
ghost use Rattle.recordings.specs.Kept.{WritesFront, kept, is_unfinished, feed, feed_refusal, feed_text, feed_after};
ghost use Rattle.recordings.specs.Steps.{Holds, Reads};

use crate::session::Session;
use crate::step::Stepped;
use crate::{request, step};
use answers::refusal::Refusal;
use frames::frame;
use frames::frame::First;

// What a chunk led to: the session that takes the place of the one handed in, and how many bytes were written, or why it was refused.
#[derive(Clone, Copy)]
pub struct Fed {
    pub session: Session,
    pub answer: Result<usize, Refusal>,
}

// For the chunk's first record and for a malformed last one.
const ROOM: usize = 192;

// For each byte of the chunk: a record prints no more than 96, and all but these two have six bytes of the chunk or more.
const ROOM_PER_BYTE: usize = 16;

// Whether the held bytes are none, or the beginning of one record that is not whole.
#[tactic(auto, unfolding(crate::specs::Kept::is_unfinished))]
fn is_unfinished(bytes: &[u8]) -> bool
    ensures { result ≡ is_unfinished bytes.now }
{
    matches!(
        frame::first_record(bytes, request::RECORD_LIMIT),
        First::Nothing | First::Cut
    )
}

// Whether a chunk of n bytes is taken.
fn check(session: Session, held: &[u8], n: usize, out: &[u8]) -> Result<(), Refusal>
    ensures { (file claimed doubtful chunk : List ℕ) → length chunk ≡ n → refusal_number result ≡ feed_refusal (kept session held.now file claimed doubtful) chunk out.now }
{
    let used = session.held.min(held.len());
    if !is_unfinished(&held[..used]) {
        return Err(Refusal::Unfit);
    }
    if out.len() < ROOM || (out.len() - ROOM) / ROOM_PER_BYTE < n {
        return Err(Refusal::TooFewBytes);
    }
    Ok(())
}

// Step by step to the chunk's end, or to a record that is malformed.
// Stays: file and ledgers are lent one by one: with a struct of them each contract would also have to say that its parts keep their `ghost_name`.
fn take(
    session: Session,
    chunk: &[u8],
    held: &mut [u8; 16391],
    file: &mut [u8; 32768],
    claimed: &mut [u64; 512],
    doubtful: &mut [u64; 512],
    out: &mut [u8],
) -> Stepped
    requires { (session.stopped ≡ false) × Holds (kept session held.old file.old claimed.old doubtful.old) × (192 + 16 * length chunk.now ≤ length out.old) }
    ensures { Reads (kept session held.old file.old claimed.old doubtful.old) (kept result.session held.new file.new claimed.new doubtful.new) chunk.now out.old result.written out.new }
{
    let mut s = session;
    let mut at = 0;
    let mut written = 0;
    // Stays: a step is as long as what it takes, and no iterator of the library has steps by what its items answer.
    while at < chunk.len() {
        let stepped = step::step(
            s,
            &chunk[at..],
            held,
            file,
            claimed,
            doubtful,
            &mut out[written..],
        );
        s = stepped.session;
        at += stepped.taken;
        written += stepped.written;
        if s.stopped {
            return Stepped {
                session: s,
                taken: at,
                written,
            };
        }
    }
    Stepped {
        session: s,
        taken: at,
        written,
    }
}

// The same, and the held bytes that are not in use become 0.
// Stays: file and ledgers are lent one by one: with a struct of them each contract would also have to say that its parts keep their `ghost_name`.
fn take_and_clear(
    session: Session,
    chunk: &[u8],
    held: &mut [u8; 16391],
    file: &mut [u8; 32768],
    claimed: &mut [u64; 512],
    doubtful: &mut [u64; 512],
    out: &mut [u8],
) -> Stepped
    requires { (session.stopped ≡ false) × Holds (kept session held.old file.old claimed.old doubtful.old) × (192 + 16 * length chunk.now ≤ length out.old) }
    ensures { WritesFront (feed_text (kept session held.old file.old claimed.old doubtful.old) chunk.now) out.old result.written out.new × (kept result.session held.new file.new claimed.new doubtful.new ≡ (feed (kept session held.old file.old claimed.old doubtful.old) chunk.now).1) }
{
    let taken = take(session, chunk, held, file, claimed, doubtful, out);
    held[taken.session.held..].fill(0);
    taken
}

// Takes a chunk, of any length, and writes what its records print to the front of the lent bytes. 1 where the held bytes are not the beginning of
// one record that is not whole, 55 where fewer bytes are lent than 192 and 16 for each of the chunk; nothing changes then. After a malformed record
// nothing is read.
// Stays: file and ledgers are lent one by one: with a struct of them each contract would also have to say that its parts keep their `ghost_name`.
pub fn feed(
    session: Session,
    chunk: &[u8],
    held: &mut [u8; 16391],
    file: &mut [u8; 32768],
    claimed: &mut [u64; 512],
    doubtful: &mut [u64; 512],
    out: &mut [u8],
) -> Fed
    ensures { (numbered result.answer ≡ written_by (feed_refusal (kept session held.old file.old claimed.old doubtful.old) chunk.now out.old) (length (feed_text (kept session held.old file.old claimed.old doubtful.old) chunk.now))) × (out.new ≡ written_after (feed_refusal (kept session held.old file.old claimed.old doubtful.old) chunk.now out.old) (feed_text (kept session held.old file.old claimed.old doubtful.old) chunk.now) out.old) × (kept result.session held.new file.new claimed.new doubtful.new ≡ feed_after (kept session held.old file.old claimed.old doubtful.old) chunk.now out.old) }
{
    if let Err(refusal) = check(session, held, chunk.len(), out) {
        return Fed {
            session,
            answer: Err(refusal),
        };
    }
    if session.stopped {
        return Fed {
            session,
            answer: Ok(0),
        };
    }
    let taken = take_and_clear(session, chunk, held, file, claimed, doubtful, out);
    Fed {
        session: taken.session,
        answer: Ok(taken.written),
    }
}
