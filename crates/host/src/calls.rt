// The calls on one transfer, which goes in and comes back by value. Those named cob2 were called cob in the first version of this interface, with one
// ledger: an object compiled for that version does not link with this one.
ghost use Rattle.std.specs.Prelude.{◌≡◌};
ghost use Rattle.transfer.specs.Transfer.{world, start_refusal, start_of, start_after};
ghost use Rattle.transfer.specs.Receive.{receive_of};
ghost use Rattle.verdicts.specs.Verdict.{to_verdict};
ghost use Rattle.receiver.specs.Shown.{shown_of};
ghost use Rattle.screen.specs.Screen.{screen_of, screen_after};
ghost use Rattle.host.specs.Received.{verdict_code, received_by};
ghost use Rattle.host.specs.Shown.{shown_by};
ghost use Rattle.host.specs.Written.{written_of};

use crate::written;
use crate::written::Written;
use receiver::receive::Receiver;
use receiver::start;
use screen::line;
use transfer::state::Transfer;
use verdicts::verdict::Verdict;

// Stays: a C struct holds no enum with values, so a refusal, a kind and a code are numbers, 0 for none.
#[repr(C)]
#[derive(Clone, Copy)]
pub struct Started {
    pub transfer: Transfer,
    pub refused: u8,
}

// Stays: a C struct holds no enum with values, so a refusal, a kind and a code are numbers, 0 for none.
#[repr(C)]
#[derive(Clone, Copy)]
pub struct Received {
    pub transfer: Transfer,
    // The bytes of the piece that were taken.
    pub taken: usize,
    // 0 GUESS, 1 RESULT, 2 BROKEN, 3 SUSPECT.
    pub verdict: u8,
    pub refused: u8,
}

// What the screen line says. Where it is refused, all other numbers are 0.
// Stays: a C struct holds no enum with values, so a refusal, a kind and a code are numbers, 0 for none.
#[repr(C)]
#[derive(Clone, Copy, Default)]
pub struct ScreenNumbers {
    // The channels that have ended.
    pub ended: u64,
    // The count, 0 while it is unknown.
    pub count: u64,
    // The fault, 0 where there is none, and its channel.
    pub fault: u64,
    pub on: u64,
    // The payload bytes stored since start, and how many bytes the doubtful ranges hold.
    pub bytes: u64,
    pub doubtful: u64,
    // 0 GUESS, 1 RESULT, 2 BROKEN, 3 SUSPECT.
    pub verdict: u8,
    pub refused: u8,
}

#[unsafe(no_mangle)]
pub extern "C" fn cob2_start(len: u64, claimed: &mut [u64], doubtful: &mut [u64]) -> Started
    ensures { (result.refused ≡ start_refusal claimed.old doubtful.old) × (result.transfer ≡ start_of len claimed.old doubtful.old) × (claimed.new ≡ start_after claimed.old doubtful.old claimed.old) × (doubtful.new ≡ start_after claimed.old doubtful.old doubtful.old) }
{
    let started = start::start(len, claimed, doubtful);
    Started {
        transfer: started.receiver.transfer,
        refused: written::number_of(started.answer),
    }
}

// Stays: the words' numbers are C's, so no conversion of the verdict's own crate has them; `verdict_code` of specs/ says them.
fn verdict_code(v: Verdict) -> u8
    ensures { result ≡ verdict_code (to_verdict v) }
{
    match v {
        Verdict::Guess => 0,
        Verdict::Result => 1,
        Verdict::Broken => 2,
        Verdict::Suspect => 3,
    }
}

// Stays: the parameters are the C interface's.
#[unsafe(no_mangle)]
pub extern "C" fn cob2_receive(
    transfer: Transfer,
    channel: u64,
    piece: &[u8],
    file: &mut [u8],
    claimed: &mut [u64],
    doubtful: &mut [u64],
) -> Received
    ensures { let left = receive_of (world transfer file.old claimed.old doubtful.old) channel piece.now in (result ≡ received_by left) × (file.new ≡ left.1.lent.file) × (claimed.new ≡ left.1.lent.claimed) × (doubtful.new ≡ left.1.lent.doubtful) }
{
    let received = Receiver { transfer }.receive(channel, piece, file, claimed, doubtful);
    let (taken, refused) = match received.answer {
        Ok(taken) => (taken, 0),
        Err(refusal) => (0, u8::from(refusal)),
    };
    Received {
        transfer: received.receiver.transfer,
        taken,
        verdict: verdict_code(received.verdict),
        refused,
    }
}

// The screen line as numbers, refused as it is.
#[unsafe(no_mangle)]
pub extern "C" fn cob_shown(transfer: Transfer, claimed: &[u64], doubtful: &[u64]) -> ScreenNumbers
    ensures { result ≡ shown_by (shown_of transfer claimed.now doubtful.now) }
{
    match (Receiver { transfer }).shown(claimed, doubtful) {
        Ok(shown) => ScreenNumbers {
            ended: shown.ended,
            count: shown.count,
            fault: shown.fault,
            on: shown.on,
            bytes: shown.bytes,
            doubtful: shown.doubtful,
            verdict: verdict_code(shown.verdict),
            refused: 0,
        },
        Err(refusal) => ScreenNumbers {
            refused: u8::from(refusal),
            ..ScreenNumbers::default()
        },
    }
}

// Stays: the parameters are the C interface's.
#[unsafe(no_mangle)]
pub extern "C" fn cob2_screen_line(
    transfer: Transfer,
    claimed: &[u64],
    doubtful: &[u64],
    out: &mut [u8],
) -> Written
    ensures { (result ≡ written_of (screen_of transfer claimed.now doubtful.now out.old)) × (out.new ≡ screen_after transfer claimed.now doubtful.now out.old) }
{
    Written::from(line::write(Receiver { transfer }, claimed, doubtful, out))
}
