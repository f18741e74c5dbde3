// The receiver as a host holds it, by value, and what a call of it answers.
ghost use Rattle.std.specs.Prelude.{◌≡◌, true, List, ℕ, ◌<◌, Err, IfOk};
ghost use Rattle.answers.specs.Refusal.{numbered, refusal_number};
ghost use Rattle.transfer.specs.Transfer.{used_of, ended_of, world, verdict_of};
ghost use Rattle.transfer.specs.Receive.{took, refusal_of, receive_of};
ghost use Rattle.transfer.specs.Fit.{fits};
ghost use Rattle.verdicts.specs.Verdict.{to_verdict};
ghost use Rattle.runs.specs.Runs.{take_bytes_on};
ghost use Rattle.receiver.specs.Answers.{to_answer};

use crate::transfer_channel;
use answers::refusal::Refusal;
use channelchecks::report::FitReport;
use channels::other_channels;
use checks::fit;
use counts::count;
use ledger::rule;
use runs::take;
use transfer::state::Transfer;
use verdicts::verdict;
use verdicts::verdict::Verdict;

#[repr(C)]
#[derive(Clone, Copy)]
pub struct Receiver {
    pub transfer: Transfer,
}

// The receiver as a call left it, and how many bytes of its piece were taken.
#[derive(Clone, Copy)]
pub struct Received {
    pub receiver: Receiver,
    pub verdict: Verdict,
    pub answer: Result<usize, Refusal>,
}

// What FIT found, where the call is not refused.
// Stays: a channel's state is the number that a C host holds (transfer::state).
fn accept(
    t: &Transfer,
    channel: u64,
    piece: &[u8],
    file: &[u8],
    claimed: &[u64],
    doubtful: &[u64],
) -> Result<FitReport, Refusal>
    ensures number { refusal_number result ≡ refusal_of (world t.now file.now claimed.now doubtful.now) channel piece.now }
    ensures counts { IfOk result (λ s. (s.used ≡ used_of t.now) × (s.ended ≡ ended_of t.now)) }
{
    let Some(found) = fit::report_with_file(*t, file.len(), claimed, doubtful) else {
        return Err(Refusal::Unfit);
    };
    if count::CHANNELS as u64 <= channel {
        return Err(Refusal::NoSuchChannel);
    }
    if !verdict::is_guess(t.fault, t.count, found.ended) {
        return Err(Refusal::Decided);
    }
    if !piece.is_empty() && 4 <= t.channels[channel as usize].state {
        return Err(Refusal::ChannelEnded);
    }
    Ok(found)
}

// Takes a piece on channel c, for what FIT found: the verdict then, and how many of its bytes were taken.
// Not inlined: in one function with `receive` the compiler sets the whole answer to 0 before it is made.
// Stays: file and ledgers are lent one by one: with a struct of them each contract would also have to say that its parts keep their `ghost_name`.
#[inline(never)]
fn taken(
    t: &mut Transfer,
    c: usize,
    found: FitReport,
    piece: &[u8],
    file: &mut [u8],
    claimed: &mut [u64],
    doubtful: &mut [u64],
) -> (Verdict, usize)
    requires { (c < 64) × (fits (world t.old file.old claimed.old doubtful.old) ≡ true) × (found.used ≡ used_of t.old) × (found.ended ≡ ended_of t.old) }
    ensures { ((took result.1, world t.new file.new claimed.new doubtful.new) ≡ take_bytes_on c (world t.old file.old claimed.old doubtful.old) piece.now 0) × (to_verdict result.0 ≡ verdict_of (world t.new file.new claimed.new doubtful.new)) }
{
    let o = other_channels::counts_without(t.len, found, t.channels[c].state);
    let x = transfer_channel::of(t, c);
    let r = take::take(x, c, o, piece, file, claimed, doubtful);
    let y = r.channel;
    transfer_channel::write_back(t, c, y);
    let verdict = verdict::of(y.fault, y.count, o.ended, y.state, rule::has_pair(doubtful));
    (verdict, r.taken)
}

impl Receiver {
    // Takes a piece on a channel. Refused by 1 to 4 it changes nothing; a fault is no refusal, it shows in the verdict.
    // Stays: file and ledgers are lent one by one: with a struct of them each contract would also have to say that its parts keep their `ghost_name`.
    pub fn receive(
        self,
        channel: u64,
        piece: &[u8],
        file: &mut [u8],
        claimed: &mut [u64],
        doubtful: &mut [u64],
    ) -> Received
        ensures { ((to_answer (numbered result.answer), world result.receiver.transfer file.new claimed.new doubtful.new) ≡ receive_of (world self.transfer file.old claimed.old doubtful.old) channel piece.now) × (to_verdict result.verdict ≡ verdict_of (world result.receiver.transfer file.new claimed.new doubtful.new)) }
    {
        let mut receiver = self;
        let t = &mut receiver.transfer;
        let (verdict, answer) = match accept(t, channel, piece, file, claimed, doubtful) {
            Ok(found) => {
                let (verdict, n) = taken(
                    t,
                    channel as usize,
                    found,
                    piece,
                    file,
                    claimed,
                    doubtful,
                );
                (verdict, Ok(n))
            }
            Err(refusal) => (verdict::of_transfer(*t, doubtful), Err(refusal)),
        };
        Received {
            receiver,
            verdict,
            answer,
        }
    }
}
