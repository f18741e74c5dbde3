// The next block of a channel.
ghost use Rattle.std.specs.Prelude.{◌≡◌, List, ◌++◌, ℕ, ◌+◌, ◌^◌, ◌≤◌, ◌<◌, length, get_or, take, drop};
ghost use Rattle.answers.specs.Refusal.{numbered, refusal_number};
ghost use Rattle.eblock.specs.Header.{header_bytes, refusal_of, second_field};
ghost use Rattle.sender.specs.Sender.{next_call, numbers_wrong, is_mismatched, call_refusal, next_of, next_after, moved_on, sender_after};

use crate::plan::{Outline, Plan};
use crate::range::out_of_range;
use crate::state::Sender;
use answers::refusal::Refusal;
use copies::copy;
use eblock::header;
use eblock::header::HEADER_LENGTH;

// The sender as a call left it, and how many bytes were written.
#[derive(Clone, Copy)]
pub struct Sent {
    pub sender: Sender,
    pub answer: Result<usize, Refusal>,
}

// Whether the numbers of a call are out of range, or not those of the sender.
// Stays: count, size and len apart, here and below, since the `fits` of a Plan holds only once they are found right.
#[tactic(auto, unfolding(crate::specs::Sender::numbers_wrong))]
fn numbers_wrong(s: &Sender, count: u64, size: u64, len: u64) -> bool
    ensures { result ≡ numbers_wrong s.now count size len }
{
    out_of_range(count, size) || count != s.count || size != s.size || len != s.len
}

// Whether a call with this count, size and file length is not one on this sender, or no calls can give the sender. The lengths are compared before
// blocks are counted, so that no number wraps.
fn is_mismatched(s: &Sender, count: u64, size: u64, len: u64) -> bool
    requires { len < 2 ^ 63 }
    ensures { (c : ℕ) (file out : List ℕ) → length file ≡ len → result ≡ is_mismatched s.now (next_call c count size file out) }
{
    numbers_wrong(s, count, size, len) || !Plan { len, count, size }.all_at_most(&s.given)
}

// Whether a call is one on this sender for a block that is still to come, before its lent bytes are looked at.
fn check(s: &Sender, channel: u64, count: u64, size: u64, len: u64) -> Result<(), Refusal>
    requires { len < 2 ^ 63 }
    ensures { (file out : List ℕ) → length file ≡ len → refusal_number result ≡ call_refusal s.now (next_call channel count size file out) }
{
    if is_mismatched(s, count, size, len) {
        return Err(Refusal::SenderArguments);
    }
    if count <= channel {
        return Err(Refusal::NoSuchSendingChannel);
    }
    let plan = Plan { len, count, size };
    if plan.most_on(channel) <= s.given[channel as usize] {
        return Err(Refusal::NothingToSend);
    }
    Ok(())
}

// Writes a header, and behind it the bytes of the file that it names.
fn write(o: Outline, file: &[u8], out: &mut [u8])
    requires { (refusal_of o.descriptor o.third ≡ 0) × (0 < o.length → o.third + o.length ≤ length file.now) × (17 + o.length ≤ length out.old) }
    ensures { out.new ≡ header_bytes o.descriptor (second_field o.descriptor o.length) o.third ++ (take o.length (drop o.third file.now) ++ drop (17 + o.length) out.old) }
{
    header::write(o.descriptor, o.length, o.third, out).unwrap();
    if o.length == 0 {
        return;
    }
    let from = o.third as usize;
    copy::store(out, HEADER_LENGTH, &file[from..], o.length as usize);
}

// Writes the next block of the channel to the front of out, and answers how many bytes these are.
fn write_next(
    sender: &Sender,
    channel: u64,
    count: u64,
    size: u64,
    file: &[u8],
    out: &mut [u8],
) -> Result<usize, Refusal>
    ensures { let k = next_call channel count size file.now out.old in (numbered result ≡ next_of sender.now k) × (out.new ≡ next_after sender.now k) }
{
    let len = file.len() as u64;
    check(sender, channel, count, size, len)?;
    let plan = Plan { len, count, size };
    let o = plan.next_outline(channel, sender.given[channel as usize]);
    let n = HEADER_LENGTH + o.length as usize;
    if out.len() < n {
        return Err(Refusal::TooFewBytes);
    }
    write(o, file, out);
    Ok(n)
}

// The sender with one block more on the channel.
#[tactic(auto, unfolding(crate::specs::Sender::moved_on))]
fn moved_on(s: Sender, c: usize) -> Sender
    requires { (c < 64) × (get_or s.given c 0 < 2 ^ 63 + 1) }
    ensures { result ≡ moved_on s c }
{
    let mut given = s.given;
    given[c] += 1;
    Sender { given, ..s }
}

// Writes the next block of the channel to the front of out; count and size are those that the sender was begun with. Refused by 71, 73, 74 or 55 it
// changes nothing.
pub fn next(
    sender: Sender,
    channel: u64,
    count: u64,
    size: u64,
    file: &[u8],
    out: &mut [u8],
) -> Sent
    ensures { let k = next_call channel count size file.now out.old in (numbered result.answer ≡ next_of sender k) × (result.sender ≡ sender_after sender k) × (out.new ≡ next_after sender k) }
{
    let answer = write_next(&sender, channel, count, size, file, out);
    let sender = match answer {
        Ok(_) => moved_on(sender, channel as usize),
        Err(_) => sender,
    };
    Sent { sender, answer }
}
