// Requests, as they are on standard input: records, each of at most 70,002 bytes after its length field.
ghost use Rattle.std.specs.Prelude.{◌≡◌, length};
ghost use Rattle.std.specs.Counts.{IsPrefixLen};

use crate::body::{Body, Malformed};
use frames::frame;
use frames::frame::{FIELD_LENGTH, FRAME_LENGTH, First};
use std::io::Read;

// The most that the length field may say.
const LIMIT: u64 = 70002;

// A request of which all is there.
#[derive(Clone, Copy)]
pub struct Request<'a> {
    pub kind: u64,
    pub body: Body<'a>,
}

// As much as the longest request, with its length field.
pub const SPACE: usize = 70006;

// Reads until the bytes are full, the input ends or a read fails; how many came.
fn read_full(input: &mut impl Read, bytes: &mut [u8]) -> usize
    ensures { IsPrefixLen result bytes.new }
{
    // Stays: no iterator, since each read gives as many bytes as it likes.
    let mut done = 0;
    while done < bytes.len() {
        match input.read(&mut bytes[done..]) {
            Ok(0) | Err(_) => break,
            Ok(n) => done += n,
        }
    }
    done
}

// The next request, at the front of the space; nothing where the input has ended.
pub fn read<'a>(
    input: &mut impl Read,
    space: &'a mut [u8],
) -> Result<Option<Request<'a>>, Malformed> {
    let (field, rest) = space.split_at_mut_checked(FIELD_LENGTH).ok_or(Malformed)?;
    let mut got = read_full(input, field);
    // Above the limit nothing of the rest is read.
    if got == FIELD_LENGTH && frame::first_record(field, LIMIT) == First::Cut {
        let length = frame::length_field(field) as usize;
        got += read_full(input, rest.get_mut(..length).ok_or(Malformed)?);
    }
    let come = space.get(..got).ok_or(Malformed)?;
    match frame::first_record(come, LIMIT) {
        First::Nothing => Ok(None),
        First::Cut | First::TooLong => Err(Malformed),
        First::Whole(n) => {
            let record = come.get(..n).ok_or(Malformed)?;
            let body = record.get(FRAME_LENGTH..).ok_or(Malformed)?;
            Ok(Some(Request {
                kind: frame::kind(record),
                body: Body::new(body),
            }))
        }
    }
}
