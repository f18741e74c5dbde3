// Kinds 18 to 22 and 24 to 26: the file and the ledgers that calls are lent, changed and shown.
use crate::body::{Body, Malformed};
use crate::part::{BYTE, Part};
use crate::print::{Hex, begin, say, used};
use crate::session::Receiving;
use screen::line;

fn poke(ledger: &mut Part<u64>, mut body: Body) -> Result<(), Malformed> {
    let index = body.u64()?;
    let value = body.u64()?;
    body.end()?;
    let entry = ledger.lent_mut().get_mut(index as usize).ok_or(Malformed)?;
    *entry = value;
    Ok(())
}

impl Receiving<'_> {
    // The screen line, which ends the line that it is on.
    pub fn print_screen(&self, rt: &impl Print) {
        // Stays: fixed memory, no heap.
        let mut out = [BYTE; 128];
        match line::write(
            *self.receiver,
            self.claimed.lent(),
            self.doubtful.lent(),
            &mut out,
        ) {
            Ok(n) => {
                let _ = rt.write_all(&out[..n.min(out.len())]);
            }
            Err(refusal) => say!(rt; "REFUSED {refusal}"),
        }
    }

    pub fn fill_file(&mut self, rt: &impl Print, mut body: Body) -> Result<(), Malformed> {
        let byte = body.u8()?;
        body.end()?;
        self.file.lent_mut().fill(byte);
        begin!(rt; "FILLED\n");
        Ok(())
    }

    pub fn poke_claimed(&mut self, rt: &impl Print, body: Body) -> Result<(), Malformed> {
        poke(&mut self.claimed, body)?;
        begin!(rt; "POKED ");
        self.print_screen(rt);
        Ok(())
    }

    pub fn poke_doubtful(&mut self, rt: &impl Print, body: Body) -> Result<(), Malformed> {
        poke(&mut self.doubtful, body)?;
        begin!(rt; "POKED ");
        self.print_screen(rt);
        Ok(())
    }

    pub fn lend(&mut self, rt: &impl Print, mut body: Body) -> Result<(), Malformed> {
        let length = body.u64()?;
        let entries = body.u64()?;
        body.end()?;
        self.file.lend(length, 0)?;
        self.claimed.lend(entries, 0)?;
        begin!(rt; "LENT ");
        self.print_screen(rt);
        Ok(())
    }

    pub fn lend_doubtful(&mut self, rt: &impl Print, mut body: Body) -> Result<(), Malformed> {
        let entries = body.u64()?;
        body.end()?;
        self.doubtful.lend(entries, 0)?;
        begin!(rt; "LENT ");
        self.print_screen(rt);
        Ok(())
    }

    pub fn show_file(&self, rt: &impl Print, mut body: Body) -> Result<(), Malformed> {
        let from = body.u64()?;
        let length = body.u64()?;
        body.end()?;
        let end = from.checked_add(length).ok_or(Malformed)?;
        let bytes = self
            .file
            .lent()
            .get(from as usize..end as usize)
            .ok_or(Malformed)?;
        say!(rt; "FILE{}", Hex(bytes));
        Ok(())
    }

    pub fn show_claimed(&self, rt: &impl Print, body: Body) -> Result<(), Malformed> {
        body.end()?;
        say!(rt; "LEDGER{}", used(self.claimed.lent()));
        Ok(())
    }

    pub fn show_doubtful(&self, rt: &impl Print, body: Body) -> Result<(), Malformed> {
        body.end()?;
        say!(rt; "DOUBTFUL{}", used(self.doubtful.lent()));
        Ok(())
    }
}
