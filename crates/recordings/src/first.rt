// The first record of some bytes: looked for, and answered where it is whole.
ghost use Rattle.std.specs.Prelude.{◌≡◌, ◌≤◌, length};
ghost use Rattle.frames.specs.Frame.{first_record};
ghost use Rattle.frames.specs.declared.frame.First.TheVariants.{Whole};
ghost use Rattle.nights.specs.Request.{record_limit};
ghost use Rattle.recordings.specs.Kept.{replay_state};
ghost use Rattle.recordings.specs.Steps.{Looks};

use crate::session::Progress;
use crate::{line, request, turn};
use frames::frame;
use frames::frame::First;

// What was found: a record that is not whole, of which no byte is used and nothing is written; or how many bytes were written.
#[derive(Clone, Copy)]
pub enum Looked {
    Malformed(usize),
    Unfinished,
    Answered {
        progress: Progress,
        used: usize,
        written: usize,
    },
}

// The first n bytes are a record.
// Stays: file and ledgers are lent one by one: with a struct of them each contract would also have to say that its parts keep their `ghost_name`.
fn answered(
    p: Progress,
    bytes: &[u8],
    n: usize,
    file: &mut [u8; 32768],
    claimed: &mut [u64; 512],
    doubtful: &mut [u64; 512],
    out: &mut [u8],
) -> Looked
    requires { (first_record record_limit bytes.now ≡ Whole n) × (96 ≤ length out.old) }
    ensures { Looks result (replay_state p file.old claimed.old doubtful.old) bytes.now out.old file.new claimed.new doubtful.new out.new }
{
    match turn::of_record(p, &bytes[..n], file, claimed, doubtful, out) {
        Some(turned) => Looked::Answered {
            progress: turned.progress,
            used: n,
            written: turned.written,
        },
        None => Looked::Malformed(line::put_record(p.number, out)),
    }
}

// Stays: file and ledgers are lent one by one: with a struct of them each contract would also have to say that its parts keep their `ghost_name`.
pub fn look(
    p: Progress,
    bytes: &[u8],
    file: &mut [u8; 32768],
    claimed: &mut [u64; 512],
    doubtful: &mut [u64; 512],
    out: &mut [u8],
) -> Looked
    requires { 96 ≤ length out.old }
    ensures { Looks result (replay_state p file.old claimed.old doubtful.old) bytes.now out.old file.new claimed.new doubtful.new out.new }
{
    match frame::first_record(bytes, request::RECORD_LIMIT) {
        First::Nothing | First::Cut => Looked::Unfinished,
        First::TooLong => Looked::Malformed(line::put_record(p.number, out)),
        First::Whole(n) => answered(p, bytes, n, file, claimed, doubtful, out),
    }
}
