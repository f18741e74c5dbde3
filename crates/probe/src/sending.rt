// Kinds 48 to 51: the sender, and the file that it is lent.
use crate::body::{Body, Malformed};
use crate::part::{BYTE, front};
use crate::print::{Counted, Hex, begin, say};
use crate::session::Sending;
use crate::space;
use sender::{begin, next};

// As much as a call can be lent.
const BYTES: usize = 70000;

impl Sending<'_> {
    pub fn begin(&mut self, rt: &impl Print, mut body: Body) -> Result<(), Malformed> {
        let count = body.u64()?;
        let size = body.u64()?;
        self.source.store(body.rest());
        let begun = begin::begin(self.source.lent().len() as u64, count, size);
        *self.sender = begun.sender;
        match begun.answer {
            Ok(()) => begin!(rt; "BEGUN\n"),
            Err(refusal) => say!(rt; "REFUSED {refusal}"),
        }
        Ok(())
    }

    // Never inlined: what it is lent is on the stack during its own calls alone.
    #[inline(never)]
    pub fn next(&mut self, rt: &impl Print, mut body: Body) -> Result<(), Malformed> {
        let channel = body.u8()?;
        let count = body.u64()?;
        let size = body.u64()?;
        let lent = body.u32()?;
        body.end()?;
        let mut space = space::bytes::<BYTES>(BYTE);
        let out = front(&mut space, u64::from(lent))?;
        let sent = next::next(
            *self.sender,
            u64::from(channel),
            count,
            size,
            self.source.lent(),
            out,
        );
        *self.sender = sent.sender;
        say!(rt; "{}{}", Counted("BLOCK ", sent.answer), Hex(out));
        Ok(())
    }

    // The sender is not told.
    pub fn lend(&mut self, rt: &impl Print, body: Body) -> Result<(), Malformed> {
        self.source.store(body.rest());
        say!(rt; "LENT {}", self.source.lent().len());
        Ok(())
    }

    // Another number of blocks that the channel was given.
    pub fn harm(&mut self, rt: &impl Print, mut body: Body) -> Result<(), Malformed> {
        let channel = body.u8()?;
        let number = body.u64()?;
        body.end()?;
        let given = self
            .sender
            .given
            .get_mut(usize::from(channel))
            .ok_or(Malformed)?;
        *given = number;
        begin!(rt; "HARMED\n");
        Ok(())
    }
}
