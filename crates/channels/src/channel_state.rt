// The channel of a call, apart from its transfer: a call changes nothing else but count and fault, so it works on these few numbers and
// writes them back once. Whatever a state doesn't use is 0.
ghost use Rattle.std.specs.Prelude.{◌≡◌};
ghost use Rattle.answers.specs.Refusal.{number};
ghost use Rattle.channels.specs.ChannelState.{with_state, cleared_with_fault};

use answers::refusal::Refusal;

// What a call can change of its transfer: the channel's numbers and held bytes, count and fault.
// Stays: count, fault, on and state are numbers, 0 for none, as the transfer has them, which a C host holds (transfer::state).
#[derive(Clone, Copy)]
pub struct ChannelState {
    pub count: u64,
    pub fault: u64,
    pub on: u64,
    pub state: u8,
    pub held: u8,
    pub next: u64,
    pub left: u64,
    // Stays: fixed memory, as the transfer has it; the field `held` says how many of them are held.
    pub bytes: [u8; 16],
}

impl ChannelState {
    // In that state, with none of its header bytes held.
    #[tactic(auto, unfolding(crate::specs::ChannelState::with_state))]
    pub fn with_state(self, state: u8, next: u64, left: u64) -> ChannelState
        ensures { result ≡ with_state self state next left }
    {
        ChannelState {
            state,
            held: 0,
            next,
            left,
            bytes: [0; 16],
            ..self
        }
    }

    // A fault with its channel; of the header nothing is held.
    #[tactic(auto, unfolding(crate::specs::ChannelState::with_state, crate::specs::ChannelState::cleared_with_fault))]
    pub fn cleared_with_fault(self, c: usize, fault: Refusal) -> ChannelState
        ensures { result ≡ cleared_with_fault self c (number fault) }
    {
        ChannelState {
            fault: u64::from(u8::from(fault)),
            on: c as u64,
            ..self.with_state(1, 0, 0)
        }
    }
}
