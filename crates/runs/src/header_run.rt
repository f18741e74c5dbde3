// Bytes for a header: held up to 16, and judged at the 17th.
ghost use Rattle.std.specs.Prelude.{◌≡◌, ℕ, ◌+◌, ◌-◌, ◌<◌, ◌≤◌, true, List, [], ◌∷◌, ◌++◌, length};
ghost use Rattle.transfer.specs.declared.state.Transfer.{Transfer};
ghost use Rattle.transfer.specs.Transfer.{world};
ghost use Rattle.transfer.specs.Fit.{fits_without_file};
ghost use Rattle.channels.specs.ChannelState.{write_back};
ghost use Rattle.channels.specs.HeldBytes.{with_held_bytes};
ghost use Rattle.channels.specs.OtherChannels.{CountsOthers};
ghost use Rattle.runs.specs.Runs.{TakesHeader, RunOf};

use crate::run::RunResult;
use channelchecks::limits::HELD_LIMIT;
use channels::channel_state::ChannelState;
use channels::other_channels::OtherChannels;
use copies::copy;
use headers::apply;

// Holds the bytes of a piece after those of the header that are held.
// Stays: a channel's state is the number that a C host holds (transfer::state).
fn hold_bytes(x: ChannelState, bytes: &[u8]) -> ChannelState
    requires { x.held + length bytes.now ≤ 255 }
    ensures { x.held + length bytes.now ≤ 16 → result ≡ with_held_bytes x bytes.now }
{
    let mut held = x.bytes;
    let n = bytes.len();
    copy::store(&mut held, x.held as usize, bytes, n);
    ChannelState {
        state: 1,
        held: x.held + n as u8,
        next: 0,
        left: 0,
        bytes: held,
        ..x
    }
}

// The 16 held bytes of a header, and its last.
fn whole_header(x: ChannelState, last: u8) -> [u8; 17]
    ensures { result ≡ x.bytes ++ last ∷ [] }
{
    // Stays: fixed memory, no heap.
    let mut head = [last; 17];
    head[..HELD_LIMIT].copy_from_slice(&x.bytes);
    head
}

// How many more bytes of a header can be held.
fn room(x: ChannelState) -> usize
    ensures { result ≡ 16 - x.held }
{
    HELD_LIMIT.saturating_sub(usize::from(x.held))
}

// The piece has the bytes up to the 16th, so many, and the 17th too: the header is made whole and judged.
// Stays: the ledgers are lent one by one: with a struct of them each contract would also have to say that its parts keep their `ghost_name`.
fn judge_run(
    x: ChannelState,
    c: usize,
    o: OtherChannels,
    piece: &[u8],
    more: usize,
    claimed: &mut [u64],
    doubtful: &mut [u64],
) -> RunResult
    requires { (more < length piece.now) × (more ≡ 16 - x.held) }
    ensures { (result.taken ≡ more + 1) × ((t : Transfer) (file : List ℕ) → CountsOthers t c o → TakesHeader x.state x.count o.used → fits_without_file (write_back t c x) claimed.old doubtful.old ≡ true → length file ≡ t.len → RunOf c (world (write_back t c x) file claimed.old doubtful.old) piece.now (world (write_back t c result.channel) file claimed.new doubtful.new) result.taken result.continues) }
{
    let y = hold_bytes(x, &piece[..more]);
    let whole = whole_header(y, piece[more]);
    let next = apply::apply_header(y, c, o, &whole, claimed, doubtful);
    RunResult {
        channel: next.channel,
        taken: more + 1,
        continues: next.continues,
    }
}

// Bytes for a header.
// Stays: the ledgers are lent one by one: with a struct of them each contract would also have to say that its parts keep their `ghost_name`.
pub fn header_run(
    x: ChannelState,
    c: usize,
    o: OtherChannels,
    piece: &[u8],
    claimed: &mut [u64],
    doubtful: &mut [u64],
) -> RunResult
    requires { 0 < length piece.now }
    ensures { (0 < result.taken) × (result.taken ≤ length piece.now) × ((t : Transfer) (file : List ℕ) → CountsOthers t c o → TakesHeader x.state x.count o.used → fits_without_file (write_back t c x) claimed.old doubtful.old ≡ true → length file ≡ t.len → RunOf c (world (write_back t c x) file claimed.old doubtful.old) piece.now (world (write_back t c result.channel) file claimed.new doubtful.new) result.taken result.continues) }
{
    let more = room(x);
    if more < piece.len() {
        judge_run(x, c, o, piece, more, claimed, doubtful)
    } else {
        RunResult {
            channel: hold_bytes(x, piece),
            taken: piece.len(),
            continues: true,
        }
    }
}
