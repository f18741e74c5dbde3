// One record: what it prints, and what it makes of the transfer, the file and the ledgers.
ghost use Rattle.std.specs.Prelude.{◌≡◌, true, Some, ◌++◌, ◌≤◌, length};
ghost use Rattle.transfer.specs.Receive.{receive_of};
ghost use Rattle.transfer.specs.Fit.{fits_without_file};
ghost use Rattle.screen.specs.Screen.{line_for};
ghost use Rattle.nights.specs.Request.{starts, request_of};
ghost use Rattle.nights.specs.Lines.{left_line};
ghost use Rattle.recordings.specs.Kept.{WritesFront, replay_state, world_in, library_answer, library_turn};
ghost use Rattle.recordings.specs.Steps.{WritesText, Leads};

use crate::request::Asked;
use crate::session::Progress;
use crate::{line, request};
use receiver::receive::Receiver;
use receiver::start;
use screen::line as screen_line;

// The most pairs of a ledger.
const PAIRS: usize = 256;

// What a record led to, and how many bytes it wrote.
#[derive(Clone, Copy)]
pub struct Turned {
    pub progress: Progress,
    pub written: usize,
}

// The screen line of a transfer and ledgers that fit.
// Stays: the ledgers are lent one by one, as a screen line's writer takes them.
fn put_screen(receiver: Receiver, claimed: &[u64], doubtful: &[u64], out: &mut [u8]) -> usize
    requires { (fits_without_file receiver.transfer claimed.now doubtful.now ≡ true) × (80 ≤ length out.old) }
    ensures { (length (line_for receiver.transfer claimed.now doubtful.now) ≤ 80) × WritesFront (line_for receiver.transfer claimed.now doubtful.now) out.old result out.new }
{
    screen_line::write(receiver, claimed, doubtful, out).unwrap_or(0)
}

// After a piece that was not refused: how many of its bytes remain, where any does, then the screen line.
// Stays: the ledgers are lent one by one, as a screen line's writer takes them.
fn put_taken(
    receiver: Receiver,
    left: usize,
    claimed: &[u64],
    doubtful: &[u64],
    out: &mut [u8],
) -> usize
    requires { (fits_without_file receiver.transfer claimed.now doubtful.now ≡ true) × (left ≤ 16384) × (96 ≤ length out.old) }
    ensures { WritesText (left_line left ++ line_for receiver.transfer claimed.now doubtful.now) out.old result out.new }
{
    let at = line::put_left(left as u64, out);
    at + put_screen(receiver, claimed, doubtful, &mut out[at..])
}

// A start: the file's bytes become 0, and so do the pairs of both ledgers.
// Stays: file and ledgers are lent one by one: with a struct of them each contract would also have to say that its parts keep their `ghost_name`.
fn start_turn(
    p: Progress,
    len: u64,
    pairs: u64,
    file: &mut [u8; 32768],
    claimed: &mut [u64; 512],
    doubtful: &mut [u64; 512],
    out: &mut [u8],
) -> Turned
    requires { (len ≤ 32768) × (pairs ≤ 256) × (96 ≤ length out.old) }
    ensures { Leads (library_turn (replay_state p file.old claimed.old doubtful.old) (starts len pairs)) (replay_state p file.old claimed.old doubtful.old) out.old (Some result) file.new claimed.new doubtful.new out.new }
{
    let bytes = len as usize;
    let entries = 2 * pairs as usize;
    file[..bytes].fill(0);
    let started = start::start(len, &mut claimed[..entries], &mut doubtful[..entries]);
    let written = put_screen(
        started.receiver,
        &claimed[..entries],
        &doubtful[..entries],
        out,
    );
    Turned {
        progress: Progress {
            receiver: started.receiver,
            number: p.number.saturating_add(1),
            started: true,
        },
        written,
    }
}

// A piece after a start.
// Stays: file and ledgers are lent one by one: with a struct of them each contract would also have to say that its parts keep their `ghost_name`.
fn piece_turn(
    p: Progress,
    channel: u8,
    piece: &[u8],
    file: &mut [u8; 32768],
    claimed: &mut [u64; 512],
    doubtful: &mut [u64; 512],
    out: &mut [u8],
) -> Turned
    requires { (length piece.now ≤ 16384) × (96 ≤ length out.old) }
    ensures { Leads (library_answer (replay_state p file.old claimed.old doubtful.old) (length piece.now) (receive_of (world_in (replay_state p file.old claimed.old doubtful.old)) channel piece.now)) (replay_state p file.old claimed.old doubtful.old) out.old (Some result) file.new claimed.new doubtful.new out.new }
{
    let bytes = (p.receiver.transfer.len as usize).min(file.len());
    let pairs = (p.receiver.transfer.pairs as usize).min(PAIRS);
    let entries = 2 * pairs;
    let received = p.receiver.receive(
        u64::from(channel),
        piece,
        &mut file[..bytes],
        &mut claimed[..entries],
        &mut doubtful[..entries],
    );
    let written = match received.answer {
        Err(refusal) => line::put_number(&line::REFUSED, u64::from(u8::from(refusal)), out),
        Ok(taken) => put_taken(
            received.receiver,
            piece.len() - taken,
            &claimed[..entries],
            &doubtful[..entries],
            out,
        ),
    };
    Turned {
        progress: Progress {
            receiver: received.receiver,
            number: p.number.saturating_add(1),
            started: true,
        },
        written,
    }
}

// A record with its frame; nothing where it is malformed, which writes nothing.
// Stays: file and ledgers are lent one by one: with a struct of them each contract would also have to say that its parts keep their `ghost_name`.
pub fn of_record(
    p: Progress,
    bytes: &[u8],
    file: &mut [u8; 32768],
    claimed: &mut [u64; 512],
    doubtful: &mut [u64; 512],
    out: &mut [u8],
) -> Option<Turned>
    requires { 96 ≤ length out.old }
    ensures { Leads (library_turn (replay_state p file.old claimed.old doubtful.old) (request_of bytes.now)) (replay_state p file.old claimed.old doubtful.old) out.old result file.new claimed.new doubtful.new out.new }
{
    match request::of_record(bytes)? {
        Asked::Start { len, pairs } => Some(start_turn(
            p, len, pairs, file, claimed, doubtful, out,
        )),
        Asked::Piece(channel) if p.started => {
            let piece = &bytes[request::BEFORE_PIECE..];
            Some(piece_turn(p, channel, piece, file, claimed, doubtful, out))
        }
        Asked::Piece(_) => None,
    }
}
