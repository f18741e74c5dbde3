// The screen line, written into lent bytes.
ghost use Rattle.std.specs.Prelude.{◌≡◌, ℕ, ◌+◌, ◌≤◌, List, [], ◌++◌, length, take};
ghost use Rattle.octets.specs.Decimal.{decimal};
ghost use Rattle.answers.specs.Refusal.{numbered};
ghost use Rattle.answers.specs.Written.{room_refusal, written_by, written_after};
ghost use Rattle.screen.specs.Screen.{count_text, broken_text, ended_text, front_text_of, tail_text_of, line_text_of, screen_of, screen_after};

use answers::refusal::Refusal;
use octets::decimal;
use receiver::receive::Receiver;
use receiver::show::Shown;
use std::marker::Model;
use verdicts::verdict::Verdict;

// The length of the longest line: SUSPECT, and four numbers of 20 digits.
const LONGEST: usize = 116;

// A line as far as it is written: contracts see its bytes.
// Stays: no Display, whose clause says nothing of a write that fails (`DisplaysOnOk`), where `screen_of` says that a line which fits is written.
#[derive(Drop)]
struct Line {
    // Stays: fixed memory, no heap.
    bytes: [u8; 116],
    length: usize,
}

impl Model for Line {
    ghost Value = { List ℕ };

    ghost view = { λ l. take l.length l.bytes };

    ghost invariant = { λ l. l.length ≤ 116 };
}

impl Line {
    fn new() -> Line
        ensures { result ≡ [] }
    {
        Line {
            bytes: [0; LONGEST],
            length: 0,
        }
    }

    fn word(&mut self, word: &[u8])
        requires { length self.old + length word.now ≤ 116 }
        ensures { self.new ≡ self.old ++ word.now }
    {
        let end = self.length + word.len();
        self.bytes[self.length..end].copy_from_slice(word);
        self.length = end;
    }

    fn number(&mut self, n: u64)
        requires { length self.old + length (decimal n) ≤ 116 }
        ensures { self.new ≡ self.old ++ decimal n }
    {
        let end = self.length + decimal::length(n);
        decimal::write(n, &mut self.bytes[self.length..end]);
        self.length = end;
    }

    #[tactic(auto, using(crate::proofs::Screen::joined), unfolding(crate::specs::Screen::unknown_word))]
    fn count(&mut self, n: u64)
        requires { length self.old + length (count_text n) ≤ 116 }
        ensures { self.new ≡ self.old ++ count_text n }
    {
        if n == 0 {
            self.word(b"?");
        } else {
            self.number(n);
        }
    }

    #[tactic(auto, using(crate::proofs::Screen::joined), unfolding(crate::specs::Screen::broken_text, crate::specs::Screen::broken_word, crate::specs::Screen::on_word))]
    fn broken(&mut self, fault: u64, on: u64)
        requires { length self.old + length (broken_text fault on) ≤ 116 }
        ensures { self.new ≡ self.old ++ broken_text fault on }
    {
        self.word(b"BROKEN ");
        self.number(fault);
        self.word(b" on ");
        self.number(on);
    }

    // GUESS, RESULT or SUSPECT, and how many channels have ended.
    #[tactic(auto, using(crate::proofs::Screen::joined), unfolding(crate::specs::Screen::ended_text, crate::specs::Screen::ended_word, crate::specs::Screen::of_word))]
    fn ended(&mut self, word: &[u8], ended: u64, count: u64)
        requires { length self.old + length word.now + length (ended_text ended count) ≤ 116 }
        ensures { self.new ≡ self.old ++ (word.now ++ ended_text ended count) }
    {
        self.word(word);
        self.word(b" ended ");
        self.number(ended);
        self.word(b" of ");
        self.count(count);
    }

    // What is before the stored bytes.
    #[tactic(auto, using(crate::proofs::Screen::joined), unfolding(crate::specs::Screen::front_text, crate::specs::Screen::guess_word, crate::specs::Screen::result_word, crate::specs::Screen::suspect_word))]
    fn front(&mut self, n: Shown)
        requires { length self.old + length (front_text_of n) ≤ 116 }
        ensures { self.new ≡ self.old ++ front_text_of n }
    {
        match n.verdict {
            Verdict::Broken => self.broken(n.fault, n.on),
            Verdict::Guess => self.ended(b"GUESS", n.ended, n.count),
            Verdict::Result => self.ended(b"RESULT", n.ended, n.count),
            Verdict::Suspect => self.ended(b"SUSPECT", n.ended, n.count),
        }
    }

    // The end of the line, after SUSPECT with the doubtful bytes.
    #[tactic(auto, using(crate::proofs::Screen::joined), unfolding(crate::specs::Screen::tail_text, crate::specs::Screen::doubtful_word, crate::specs::Screen::line_feed))]
    fn tail(&mut self, n: Shown)
        requires { length self.old + length (tail_text_of n) ≤ 116 }
        ensures { self.new ≡ self.old ++ tail_text_of n }
    {
        match n.verdict {
            Verdict::Suspect => {
                self.word(b" doubtful ");
                self.number(n.doubtful);
                self.word(b"\n");
            }
            _ => self.word(b"\n"),
        }
    }

    // The line in the first of the lent bytes: 55 where they are too few.
    fn copy_to(&self, out: &mut [u8]) -> Result<usize, Refusal>
        ensures { (numbered result ≡ written_by (room_refusal (length self.now) out.old) (length self.now)) × (out.new ≡ written_after (room_refusal (length self.now) out.old) self.now out.old) }
    {
        if out.len() < self.length {
            return Err(Refusal::TooFewBytes);
        }
        out[..self.length].copy_from_slice(&self.bytes[..self.length]);
        Ok(self.length)
    }
}

impl From<Shown> for Line {
    ghost from_gives = { λ n line. line ≡ line_text_of n };

    #[tactic(auto, using(crate::proofs::Screen::joined), unfolding(crate::specs::Screen::line_text, crate::specs::Screen::bytes_text, crate::specs::Screen::bytes_word))]
    fn from(n: Shown) -> Line {
        let mut line = Line::new();
        line.front(n);
        line.word(b" bytes ");
        line.number(n.bytes);
        line.tail(n);
        line
    }
}

// 1 where transfer and ledgers don't fit, then 55.
// Stays: receiver, ledgers and out as parameters, since docs/ name this function, and a C host lends them one by one.
pub fn write(
    receiver: Receiver,
    claimed: &[u64],
    doubtful: &[u64],
    out: &mut [u8],
) -> Result<usize, Refusal>
    ensures { (numbered result ≡ screen_of receiver.transfer claimed.now doubtful.now out.old) × (out.new ≡ screen_after receiver.transfer claimed.now doubtful.now out.old) }
{
    let shown = receiver.shown(claimed, doubtful)?;
    Line::from(shown).copy_to(out)
}
