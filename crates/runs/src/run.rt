// One run of bytes on a channel: those of a header at hand, or those of a payload at hand.
ghost use Rattle.std.specs.Prelude.{◌≡◌, ◌<◌, ◌≤◌, true, ◌&&◌, length, ◌==◌};
ghost use Rattle.transfer.specs.declared.state.Transfer.{Transfer};
ghost use Rattle.transfer.specs.Transfer.{world};
ghost use Rattle.transfer.specs.Fit.{fits};
ghost use Rattle.channels.specs.ChannelState.{write_back};
ghost use Rattle.channels.specs.OtherChannels.{CountsOthers};
ghost use Rattle.verdicts.specs.Verdict.{count_reached};
ghost use Rattle.runs.specs.Runs.{RunOf};

use crate::{header_run, payload_run};
use answers::refusal::Refusal;
use channels::channel_state::ChannelState;
use channels::other_channels::OtherChannels;
use verdicts::verdict;

// A channel after a run of bytes, how many they were, and whether the call continues.
// Stays: a flag beside a channel that is there in both cases, so no Option and no Result.
#[derive(Clone, Copy)]
pub struct RunResult {
    pub channel: ChannelState,
    pub taken: usize,
    pub continues: bool,
}

// Whether the channel is unused and its first byte gives 19: the count is known, and as many channels are used.
// Stays: a channel's state is, here and below, the number that a C host holds (transfer::state).
fn gives_19(x: ChannelState, o: OtherChannels) -> bool
    ensures { result ≡ (x.state == 0 && count_reached x.count o.used) }
{
    x.state == 0 && verdict::count_reached(x.count, o.used)
}

// Takes the bytes of the header or of the payload at hand. The last case is that of an ended channel, which takes none.
// Stays: file and ledgers are lent one by one: with a struct of them each contract would also have to say that its parts keep their `ghost_name`.
pub fn run(
    x: ChannelState,
    c: usize,
    o: OtherChannels,
    piece: &[u8],
    file: &mut [u8],
    claimed: &mut [u64],
    doubtful: &mut [u64],
) -> RunResult
    requires { 0 < length piece.now }
    ensures { (result.taken ≤ length piece.now) × (result.continues ≡ true → 0 < result.taken) × ((t : Transfer) → CountsOthers t c o → fits (world (write_back t c x) file.old claimed.old doubtful.old) ≡ true → RunOf c (world (write_back t c x) file.old claimed.old doubtful.old) piece.now (world (write_back t c result.channel) file.new claimed.new doubtful.new) result.taken result.continues) }
{
    if gives_19(x, o) {
        return RunResult {
            channel: ChannelState {
                fault: u64::from(u8::from(Refusal::TooManyChannels)),
                on: c as u64,
                ..x
            },
            taken: 0,
            continues: false,
        };
    }
    if x.state < 2 {
        return header_run::header_run(x, c, o, piece, claimed, doubtful);
    }
    if 0 < x.left {
        return payload_run::payload_run(x, piece, file);
    }
    RunResult {
        channel: x,
        taken: 0,
        continues: false,
    }
}
