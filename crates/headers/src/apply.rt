// A header applied to its channel.
ghost use Rattle.std.specs.Prelude.{◌≡◌, true, List, ℕ, ◌*◌, ◌<◌, length};
ghost use Rattle.answers.specs.Refusal.{number};
ghost use Rattle.ledger.specs.Ledger.{obeys};
ghost use Rattle.transfer.specs.declared.state.Transfer.{Transfer};
ghost use Rattle.transfer.specs.Transfer.{world};
ghost use Rattle.transfer.specs.Fit.{doubtful_fits};
ghost use Rattle.transfer.specs.Receive.{stop_with_fault, apply_header};
ghost use Rattle.channels.specs.ChannelState.{HasChannel, write_back};
ghost use Rattle.channels.specs.OtherChannels.{CountsOthers};
ghost use Rattle.channels.specs.NextState.{continues_or_stops};
ghost use Rattle.headers.specs.ClaimOrFault.{claim_or_fault};

use crate::judge::Request;
use crate::{claim_range, judge};
use answers::refusal::Refusal;
use channels::channel_state::ChannelState;
use channels::next_state;
use channels::next_state::NextState;
use channels::other_channels::OtherChannels;
use eblock::descriptor;

// A fault on channel c.
fn faulty(x: ChannelState, c: usize, fault: Refusal) -> NextState
    ensures { (t : Transfer) (file claimed doubtful : List ℕ) → HasChannel t c → continues_or_stops result.continues (world (write_back t c result.channel) file claimed doubtful) ≡ stop_with_fault (world (write_back t c x) file claimed doubtful) c (number fault) }
{
    NextState {
        channel: x.cleared_with_fault(c, fault),
        continues: false,
    }
}

// Stays: the ledgers are lent one by one: with a struct of them each contract would also have to say that its parts keep their `ghost_name`.
// A range that a header asks for: its fault, or it is claimed, in both ledgers where it is doubtful, and its payload opened.
fn claim_or_fault(
    x: ChannelState,
    c: usize,
    start: u64,
    end: u64,
    doubt: bool,
    last: bool,
    claimed: &mut [u64],
    doubtful: &mut [u64],
) -> NextState
    requires { start < end }
    ensures { obeys claimed.old ≡ true → (t : Transfer) (file : List ℕ) → HasChannel t c → length claimed.old ≡ 2 * t.pairs → doubtful_fits t.pairs claimed.old doubtful.old ≡ true → continues_or_stops result.continues (world (write_back t c result.channel) file claimed.new doubtful.new) ≡ claim_or_fault (world (write_back t c x) file claimed.old doubtful.old) c start end doubt last }
{
    match claim_range::claim_range(start, end, doubt, claimed, doubtful) {
        Ok(()) => next_state::expect_payload(x, start, end - start, last),
        Err(fault) => faulty(x, c, fault),
    }
}

// Stays: docs/PROMISES.md names this function, so what it asks of the ledgers stands in its clause.
// A header of 17 bytes judged and applied.
pub fn apply_header(
    x: ChannelState,
    c: usize,
    o: OtherChannels,
    head: &[u8; 17],
    claimed: &mut [u64],
    doubtful: &mut [u64],
) -> NextState
    ensures { x.state ≡ 1 → obeys claimed.old ≡ true → (t : Transfer) (file : List ℕ) → CountsOthers t c o → length claimed.old ≡ 2 * t.pairs → doubtful_fits t.pairs claimed.old doubtful.old ≡ true → continues_or_stops result.continues (world (write_back t c result.channel) file claimed.new doubtful.new) ≡ apply_header (world (write_back t c x) file claimed.old doubtful.old) c head.now }
{
    let last = descriptor::has(descriptor::END_OF_DATA, head[0]);
    match judge::judge_header(o.len, x.count, o.used, head) {
        Ok(Request::Counts(count)) => {
            next_state::expect_payload(ChannelState { count, ..x }, 0, 0, last)
        }
        Ok(Request::Nothing) => next_state::expect_payload(x, 0, 0, last),
        Ok(
            Request::Claims {
                start,
                end,
                doubtful: doubt,
            },
        ) => claim_or_fault(x, c, start, end, doubt, last, claimed, doubtful),
        Err(fault) => faulty(x, c, fault),
    }
}
