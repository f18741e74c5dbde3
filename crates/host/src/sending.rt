// The sending side. A sender goes in and comes back by value.
ghost use Rattle.std.specs.Prelude.{◌≡◌};
ghost use Rattle.sender.specs.Sender.{begin_refusal, begin_of, next_call, next_of, next_after, sender_after};
ghost use Rattle.host.specs.Sending.{sent_by};

use crate::written;
use crate::written::Written;
use sender::state::Sender;
use sender::{begin, next};

// Stays: a C struct holds no enum with values, so a refusal, a kind and a code are numbers, 0 for none.
#[repr(C)]
#[derive(Clone, Copy)]
pub struct Begun {
    // All 0 where it is refused.
    pub sender: Sender,
    pub refused: u8,
}

// Stays: a C struct holds no enum with values, so a refusal, a kind and a code are numbers, 0 for none.
#[repr(C)]
#[derive(Clone, Copy)]
pub struct Sent {
    pub sender: Sender,
    // The bytes written, the first of those lent.
    pub length: usize,
    pub refused: u8,
}

// For a file of len bytes, on so many channels, in blocks of so many bytes.
#[unsafe(no_mangle)]
pub extern "C" fn cob_sender_begin(len: u64, count: u64, size: u64) -> Begun
    ensures { (result.refused ≡ begin_refusal count size) × (result.sender ≡ begin_of len count size) }
{
    let begun = begin::begin(len, count, size);
    Begun {
        sender: begun.sender,
        refused: written::number_of(begun.answer),
    }
}

// Writes the next block of the channel; count and size are those that the sender was begun with.
#[unsafe(no_mangle)]
pub extern "C" fn cob_sender_next(
    sender: Sender,
    channel: u64,
    count: u64,
    size: u64,
    file: &[u8],
    out: &mut [u8],
) -> Sent
    ensures { let k = next_call channel count size file.now out.old in (result ≡ sent_by (next_of sender k) (sender_after sender k)) × (out.new ≡ next_after sender k) }
{
    let sent = next::next(sender, channel, count, size, file, out);
    let Written { length, refused } = Written::from(sent.answer);
    Sent {
        sender: sent.sender,
        length,
        refused,
    }
}
