// Kinds 32 and 33: the block header.
use crate::body::{Body, Malformed};
use crate::part::{BYTE, front};
use crate::print::{Counted, Hex, say};
use eblock::header;
use eblock::header::Header;

pub fn read(rt: &impl Print, body: Body) -> Result<(), Malformed> {
    match header::read(body.rest()) {
        Ok(
            Header::Data {
                descriptor,
                length,
                offset,
            },
        ) => say!(rt; "DATA {descriptor} {length} {offset}"),
        Ok(Header::Eodc { descriptor, count }) => say!(rt; "EODC {descriptor} {count}"),
        Err(refusal) => say!(rt; "REFUSED {refusal}"),
    }
    Ok(())
}

pub fn write(rt: &impl Print, mut body: Body) -> Result<(), Malformed> {
    let descriptor = body.u8()?;
    let length = body.u64()?;
    let third = body.u64()?;
    let lent = body.u8()?;
    body.end()?;
    // Stays: fixed memory, no heap.
    let mut space = [BYTE; 255];
    let out = front(&mut space, u64::from(lent))?;
    let answer = header::write(descriptor, length, third, out);
    say!(rt; "{}{}", Counted("WROTE ", answer), Hex(out));
    Ok(())
}
