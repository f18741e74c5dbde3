// Kinds 37 to 41: a ledger as text and as a saved record.
use crate::body::{Body, Malformed};
use crate::part::{BYTE, ENTRY, front};
use crate::print::{Counted, Hex, Said, say, used};
use crate::space;
use answers::refusal::Refusal;
use std::fmt;

// Above the most entries that a ledger may have, so that it can be lent too long.
const ENTRIES: usize = 8200;

// As many bytes as two bytes can name.
pub const BYTES: usize = 65535;

// What was read: a range list, a saved record of kind 1, or one of kind 2 with the file length that it has.
#[derive(Clone, Copy)]
pub enum Loaded {
    Ranges,
    Saved,
    Sized(u64),
}

impl fmt::Display for Loaded {
    fn fmt<W: fmt::Write>(&self, f: &mut fmt::Formatter<W>) -> fmt::Result {
        match self {
            Loaded::Ranges => write!(f, "RANGES"),
            Loaded::Saved => write!(f, "LOADED"),
            // The blank is a piece of its own.
            Loaded::Sized(length) => write!(f, "LOADED2{}{length}", " "),
        }
    }
}

// By a reader of the bytes after the number of lent entries.
// Never inlined: what it is lent is on the stack during its own calls alone.
#[inline(never)]
pub fn read<F: FnOnce(&[u8], &mut [u64]) -> Result<Loaded, Refusal>>(
    rt: &impl Print,
    mut body: Body,
    read: F,
) -> Result<(), Malformed>
    requires { F.IsAlwaysCallable read }
{
    let mut space = space::entries::<ENTRIES>(ENTRY);
    let ledger = front(&mut space, u64::from(body.u16()?))?;
    let answer = read(body.rest(), ledger);
    say!(rt; "{}{}", Said(answer), used(ledger));
    Ok(())
}

// By a writer of the entries after the number of lent bytes.
// Never inlined: what it is lent is on the stack during its own calls alone.
#[inline(never)]
pub fn write<F: FnOnce(&[u64], &mut [u8]) -> Result<usize, Refusal>>(
    rt: &impl Print,
    mut body: Body,
    word: &str,
    write: F,
) -> Result<(), Malformed>
    requires { F.IsAlwaysCallable write }
{
    let lent = body.u16()?;
    let (numbers, cut) = body.rest().as_chunks::<8>();
    if !cut.is_empty() {
        return Err(Malformed);
    }
    let mut entries = space::entries::<ENTRIES>(ENTRY);
    let ledger = front(&mut entries, numbers.len() as u64)?;
    for (entry, number) in ledger.iter_mut().zip(numbers) {
        *entry = u64::from_le_bytes(*number);
    }
    let mut space = space::bytes::<BYTES>(BYTE);
    let out = front(&mut space, u64::from(lent))?;
    let answer = write(ledger, out);
    say!(rt; "{}{}", Counted(word, answer), Hex(out));
    Ok(())
}
