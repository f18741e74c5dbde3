// One step through a chunk: a record of it, or the bytes that the held ones lack.
ghost use Rattle.std.specs.Prelude.{◌≡◌, false, ◌+◌, ◌≤◌, ◌<◌, length};
ghost use Rattle.recordings.specs.Kept.{kept};
ghost use Rattle.recordings.specs.Steps.{after_look, written_in, Holds, Steps};

use crate::first;
use crate::first::Looked;
use crate::session::{Progress, Session};
use copies::copy;
use frames::frame;

// How far the chunk was taken, and how much was written.
#[derive(Clone, Copy)]
pub struct Stepped {
    pub session: Session,
    pub taken: usize,
    pub written: usize,
}

// What a look leads to: where the record is not whole, so many bytes are held as `waiting` says. The chunk gave `taken` of them.
fn after_look(p: Progress, looked: Looked, waiting: usize, taken: usize) -> Stepped
    ensures { (result.session ≡ after_look p looked waiting) × (result.taken ≡ taken) × (result.written ≡ written_in looked) }
{
    let (progress, held, stopped, written) = match looked {
        Looked::Malformed(written) => (p, 0, true, written),
        Looked::Unfinished => (p, waiting, false, 0),
        Looked::Answered {
            progress,
            used: _,
            written,
        } => (progress, 0, false, written),
    };
    Stepped {
        session: Session {
            progress,
            held,
            stopped,
        },
        taken,
        written,
    }
}

// Where nothing is held: the chunk's own first record, or all of it held.
// Stays: file and ledgers are lent one by one: with a struct of them each contract would also have to say that its parts keep their `ghost_name`.
fn step_chunk(
    s: Session,
    chunk: &[u8],
    held: &mut [u8; 16391],
    file: &mut [u8; 32768],
    claimed: &mut [u64; 512],
    doubtful: &mut [u64; 512],
    out: &mut [u8],
) -> Stepped
    requires { (0 < length chunk.now) × (s.held ≡ 0) × (s.stopped ≡ false) × (96 ≤ length out.old) }
    ensures { Steps (kept s held.old file.old claimed.old doubtful.old) (kept result.session held.new file.new claimed.new doubtful.new) chunk.now out.old result.taken result.written out.new }
{
    let looked = first::look(s.progress, chunk, file, claimed, doubtful, out);
    if let Looked::Answered { used, .. } = looked {
        return after_look(s.progress, looked, 0, used);
    }
    let n = chunk.len();
    copy::store(held, 0, chunk, n);
    after_look(s.progress, looked, n, n)
}

// Where a record has begun: the bytes that it lacks, as far as its length is known and the chunk has them.
// Stays: file and ledgers are lent one by one: with a struct of them each contract would also have to say that its parts keep their `ghost_name`.
fn step_held(
    s: Session,
    chunk: &[u8],
    held: &mut [u8; 16391],
    file: &mut [u8; 32768],
    claimed: &mut [u64; 512],
    doubtful: &mut [u64; 512],
    out: &mut [u8],
) -> Stepped
    requires { (0 < length chunk.now) × (0 < s.held) × (s.stopped ≡ false) × Holds (kept s held.old file.old claimed.old doubtful.old) × (96 ≤ length out.old) }
    ensures { Steps (kept s held.old file.old claimed.old doubtful.old) (kept result.session held.new file.new claimed.new doubtful.new) chunk.now out.old result.taken result.written out.new }
{
    let at = s.held;
    let lacks = frame::record_length(&held[..at]) - at;
    let n = lacks.min(chunk.len());
    copy::store(held, at, chunk, n);
    let end = at + n;
    let looked = first::look(s.progress, &held[..end], file, claimed, doubtful, out);
    after_look(s.progress, looked, end, n)
}

// Stays: file and ledgers are lent one by one: with a struct of them each contract would also have to say that its parts keep their `ghost_name`.
pub fn step(
    s: Session,
    chunk: &[u8],
    held: &mut [u8; 16391],
    file: &mut [u8; 32768],
    claimed: &mut [u64; 512],
    doubtful: &mut [u64; 512],
    out: &mut [u8],
) -> Stepped
    requires { (0 < length chunk.now) × (s.stopped ≡ false) × Holds (kept s held.old file.old claimed.old doubtful.old) × (96 ≤ length out.old) }
    ensures { Steps (kept s held.old file.old claimed.old doubtful.old) (kept result.session held.new file.new claimed.new doubtful.new) chunk.now out.old result.taken result.written out.new }
{
    if s.held == 0 {
        return step_chunk(s, chunk, held, file, claimed, doubtful, out);
    }
    step_held(s, chunk, held, file, claimed, doubtful, out)
}
