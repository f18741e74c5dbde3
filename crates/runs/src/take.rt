// The bytes of a call, run by run.
ghost use Rattle.std.specs.Prelude.{◌≡◌, true};
ghost use Rattle.transfer.specs.declared.state.Transfer.{Transfer};
ghost use Rattle.transfer.specs.Transfer.{world};
ghost use Rattle.transfer.specs.Receive.{took};
ghost use Rattle.transfer.specs.Fit.{fits};
ghost use Rattle.channels.specs.ChannelState.{write_back};
ghost use Rattle.channels.specs.OtherChannels.{CountsOthers};
ghost use Rattle.runs.specs.Runs.{take_bytes_on};

use crate::run;
use channels::channel_state::ChannelState;
use channels::other_channels::OtherChannels;

// A channel after a piece, and how many of its bytes were taken.
#[derive(Clone, Copy)]
pub struct CallResult {
    pub channel: ChannelState,
    pub taken: usize,
}

// The bytes of a piece, run by run, until they are all taken or the call stops.
// Stays: file and ledgers are lent one by one: with a struct of them each contract would also have to say that its parts keep their `ghost_name`.
pub fn take(
    x: ChannelState,
    c: usize,
    o: OtherChannels,
    piece: &[u8],
    file: &mut [u8],
    claimed: &mut [u64],
    doubtful: &mut [u64],
) -> CallResult
    ensures { (t : Transfer) → CountsOthers t c o → fits (world (write_back t c x) file.old claimed.old doubtful.old) ≡ true → (took result.taken, world (write_back t c result.channel) file.new claimed.new doubtful.new) ≡ take_bytes_on c (world (write_back t c x) file.old claimed.old doubtful.old) piece.now 0 }
{
    let mut channel = x;
    let mut taken = 0;
    // Stays: a step is as long as its run, and no iterator of the library has steps by what its items answer.
    while taken < piece.len() {
        let r = run::run(channel, c, o, &piece[taken..], file, claimed, doubtful);
        channel = r.channel;
        taken += r.taken;
        if !r.continues {
            return CallResult { channel, taken };
        }
    }
    CallResult { channel, taken }
}
