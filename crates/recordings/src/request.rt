// What a record of a recording asks for.
ghost use Rattle.std.specs.Prelude.{◌≡◌};
ghost use Rattle.nights.specs.Request.{start_in, piece_in, request_of};
ghost use Rattle.recordings.specs.Asked.{asks_body, asks};

use frames::frame;
use octets::little;

const START: u64 = 16;

const PIECE: u64 = 17;

const START_LENGTH: usize = 16;

const FILE_LIMIT: u64 = 32768;

const PAIR_LIMIT: u64 = 256;

const PIECE_LIMIT: usize = 16384;

// Frame and channel.
pub const BEFORE_PIECE: usize = 7;

// The most that the length field of a well-formed record says: kind, channel and the longest piece.
pub const RECORD_LIMIT: u64 = 16387;

// A start with its numbers, or a piece with its channel.
#[derive(Clone, Copy, Debug, PartialEq, Eq)]
pub enum Asked {
    Start { len: u64, pairs: u64 },
    Piece(u8),
}

fn start_in(body: &[u8]) -> Option<Asked>
    ensures { asks_body result body.now ≡ start_in body.now }
{
    if body.len() != START_LENGTH {
        return None;
    }
    let len = little::read(&body[0..8]);
    if FILE_LIMIT < len {
        return None;
    }
    let pairs = little::read(&body[8..16]);
    if PAIR_LIMIT < pairs {
        return None;
    }
    Some(Asked::Start { len, pairs })
}

fn piece_in(body: &[u8]) -> Option<Asked>
    ensures { asks_body result body.now ≡ piece_in body.now }
{
    if body.len() == 0 {
        return None;
    }
    if PIECE_LIMIT < body.len() - 1 {
        return None;
    }
    Some(Asked::Piece(body[0]))
}

// Of a record with its frame; nothing where it is malformed.
pub fn of_record(bytes: &[u8]) -> Option<Asked>
    ensures { asks result bytes.now ≡ request_of bytes.now }
{
    if bytes.len() < frame::FRAME_LENGTH {
        return None;
    }
    let body = &bytes[frame::FRAME_LENGTH..];
    match frame::kind(bytes) {
        START => start_in(body),
        PIECE => piece_in(body),
        _ => None,
    }
}
