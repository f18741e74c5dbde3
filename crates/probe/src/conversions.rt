// Kinds 42 and 43: a saved record of one kind as one of the other.
use crate::body::{Body, Malformed};
use crate::ledgers::BYTES;
use crate::part::{BYTE, front};
use crate::print::{Counted, Hex, say};
use crate::space;
use answers::refusal::Refusal;
use savedconversions::conversion;

// By a converter of the record after the number of lent bytes.
// Never inlined: what it is lent is on the stack during its own calls alone.
#[inline(never)]
fn convert<F: FnOnce(&[u8], &mut [u8]) -> Result<usize, Refusal>>(
    rt: &impl Print,
    mut body: Body,
    convert: F,
) -> Result<(), Malformed>
    requires { F.IsAlwaysCallable convert }
{
    let mut space = space::bytes::<BYTES>(BYTE);
    let out = front(&mut space, u64::from(body.u16()?))?;
    let answer = convert(body.rest(), out);
    say!(rt; "{}{}", Counted("CONVERTED ", answer), Hex(out));
    Ok(())
}

pub fn to_two(rt: &impl Print, mut body: Body) -> Result<(), Malformed> {
    let length = body.u64()?;
    convert(
        rt,
        body,
        |record, out| conversion::to_two(length, record, out),
    )
}

pub fn to_one(rt: &impl Print, body: Body) -> Result<(), Malformed> {
    convert(rt, body, conversion::to_one)
}
