// The beginning of a sending.
ghost use Rattle.std.specs.Prelude.{◌≡◌};
ghost use Rattle.answers.specs.Refusal.{refusal_number};
ghost use Rattle.sender.specs.Sender.{begun, begin_refusal, begin_of};

use crate::range::out_of_range;
use crate::state::Sender;
use answers::refusal::Refusal;

// The sender that a beginning gives, and whether it was refused.
#[derive(Clone, Copy)]
pub struct Begun {
    pub sender: Sender,
    pub answer: Result<(), Refusal>,
}

// Nothing given on any channel.
#[tactic(auto, unfolding(crate::specs::Sender::begun))]
fn fresh(len: u64, count: u64, size: u64) -> Sender
    ensures { result ≡ begun len count size }
{
    Sender {
        len,
        count,
        size,
        // Stays: as long as the sender's, which a C host holds (state::Sender).
        given: [0; 64],
    }
}

// For a file of len bytes, on so many channels, in blocks of so many bytes. 71 where one of the two is out of range: the sender is all 0 then, and
// every call on it is 71.
#[tactic(auto, unfolding(crate::specs::Sender::begin_refusal, crate::specs::Sender::begin_of))]
pub fn begin(len: u64, count: u64, size: u64) -> Begun
    ensures { (refusal_number result.answer ≡ begin_refusal count size) × (result.sender ≡ begin_of len count size) }
{
    if out_of_range(count, size) {
        return Begun {
            sender: fresh(0, 0, 0),
            answer: Err(Refusal::SenderArguments),
        };
    }
    Begun {
        sender: fresh(len, count, size),
        answer: Ok(()),
    }
}
