// Kinds 16, 17 and 23: start and receive.
use crate::body::{Body, Malformed};
use crate::part::ENTRY;
use crate::print::begin;
use crate::session::Receiving;
use receiver::start;
use verdicts::verdict::Verdict;

fn word(verdict: Verdict) -> &'static str {
    match verdict {
        Verdict::Guess => " GUESS ",
        Verdict::Result => " RESULT ",
        Verdict::Suspect => " SUSPECT ",
        Verdict::Broken => " BROKEN ",
    }
}

impl Receiving<'_> {
    fn start(
        &mut self,
        rt: &impl Print,
        length: u64,
        claimed: u64,
        doubtful: u64,
    ) -> Result<(), Malformed> {
        self.claimed.start(claimed, ENTRY)?;
        self.doubtful.start(doubtful, ENTRY)?;
        let bytes = length.min(self.file.room());
        self.file.start(bytes, 0)?;
        let started = start::start(length, self.claimed.lent_mut(), self.doubtful.lent_mut());
        *self.receiver = started.receiver;
        match started.answer {
            Ok(()) => begin!(rt; "STARTED "),
            Err(refusal) => begin!(rt; "REFUSED {refusal} "),
        }
        self.print_screen(rt);
        Ok(())
    }

    // With two ledgers of one length.
    pub fn start_alike(&mut self, rt: &impl Print, mut body: Body) -> Result<(), Malformed> {
        let length = body.u64()?;
        let entries = body.u64()?;
        body.end()?;
        self.start(rt, length, entries, entries)
    }

    // With a length for either ledger.
    pub fn start_apart(&mut self, rt: &impl Print, mut body: Body) -> Result<(), Malformed> {
        let length = body.u64()?;
        let claimed = body.u64()?;
        let doubtful = body.u64()?;
        body.end()?;
        self.start(rt, length, claimed, doubtful)
    }

    pub fn receive(&mut self, rt: &impl Print, mut body: Body) -> Result<(), Malformed> {
        let channel = body.u8()?;
        let received = self.receiver.receive(
            u64::from(channel),
            body.rest(),
            self.file.lent_mut(),
            self.claimed.lent_mut(),
            self.doubtful.lent_mut(),
        );
        *self.receiver = received.receiver;
        match received.answer {
            Ok(taken) => begin!(rt; "TOOK {taken}{}", word(received.verdict)),
            Err(refusal) => begin!(rt; "REFUSED {refusal} "),
        }
        self.print_screen(rt);
        Ok(())
    }
}
