// Bytes for a payload: stored at their place, up to the payload's end.
ghost use Rattle.std.specs.Prelude.{◌≡◌, ℕ, ◌<◌, min, true, List, length};
ghost use Rattle.transfer.specs.declared.state.Transfer.{Transfer};
ghost use Rattle.transfer.specs.Transfer.{world};
ghost use Rattle.transfer.specs.Fit.{fits};
ghost use Rattle.channels.specs.ChannelState.{HasChannel, write_back};
ghost use Rattle.runs.specs.Runs.{RunOf};

use crate::run::RunResult;
use channels::channel_state::ChannelState;
use channels::next_state;
use copies::copy;

// Stores the piece's bytes up to the payload's end. Where the transfer fits, the payload lies in the file and the sum does not wrap.
// Stays: a channel's state is the number that a C host holds (transfer::state).
pub fn payload_run(x: ChannelState, piece: &[u8], file: &mut [u8]) -> RunResult
    requires { (0 < length piece.now) × (1 < x.state) × (0 < x.left) }
    ensures { (result.taken ≡ min x.left (length piece.now)) × ((t : Transfer) (c : ℕ) (claimed doubtful : List ℕ) → HasChannel t c → fits (world (write_back t c x) file.old claimed doubtful) ≡ true → RunOf c (world (write_back t c x) file.old claimed doubtful) piece.now (world (write_back t c result.channel) file.new claimed doubtful) result.taken result.continues) }
{
    let n = x.left.min(piece.len() as u64);
    copy::store(file, x.next as usize, piece, n as usize);
    let next = next_state::expect_payload(x, x.next.wrapping_add(n), x.left - n, x.state == 3);
    RunResult {
        channel: next.channel,
        taken: n as usize,
        continues: next.continues,
    }
}
