// A header judged by the transfer alone.
ghost use Rattle.std.specs.Prelude.{◌≡◌, cond, ◌||◌, ◌+◌, ltb, eqb, length};
ghost use Rattle.eblock.specs.Header.{count_limit};
ghost use Rattle.transfer.specs.Header.{counts, claims, nothing, faulty, request_of};
ghost use Rattle.headers.specs.Request.{to_header_request};

use answers::refusal::Refusal;
use eblock::{descriptor, header};
use octets::big;
use sums::sum;

// What a header asks for: a count, a range, doubtful or not, or neither.
// Stays: no Option: to ask for nothing is one of three requests, each followed by its own step.
#[derive(Clone, Copy, Debug, PartialEq, Eq)]
pub enum Request {
    Counts(u64),
    Claims {
        start: u64,
        end: u64,
        doubtful: bool,
    },
    Nothing,
}

// A count, where the known one or 0 and the other channels used are given; this one is used with them.
// Stays: a known count of 0 is none, as the transfer has it, which a C host holds (transfer::state).
fn judge_count(known: u64, others: u64, count: u64) -> Result<Request, Refusal>
    ensures { to_header_request result ≡ cond (ltb 0 known) (faulty 14) (cond (eqb count 0 || (ltb count_limit count || ltb count (others + 1))) (faulty 15) (counts count)) }
{
    if known != 0 {
        return Err(Refusal::SecondCount);
    }
    if count == 0 || header::COUNT_LIMIT < count || count <= others {
        return Err(Refusal::CountOutOfRange);
    }
    Ok(Request::Counts(count))
}

// A payload of length bytes from the place offset on, doubtful or not, in a file of len bytes.
fn judge_payload(len: u64, length: u64, offset: u64, doubtful: bool) -> Result<Request, Refusal>
    ensures { to_header_request result ≡ cond (eqb length 0) nothing (cond (ltb len (offset + length)) (faulty 16) (claims offset (offset + length) doubtful)) }
{
    if length == 0 {
        return Ok(Request::Nothing);
    }
    if !sum::sum_at_most(offset, length, len) {
        return Err(Refusal::PastFileEnd);
    }
    Ok(Request::Claims {
        start: offset,
        end: offset + length,
        doubtful,
    })
}

// Judged by the transfer alone: a file of len bytes, the known count or 0, and the other channels used; this one is used with them.
#[tactic(auto, unfolding(transfer::specs::Header::request_of, eblock::specs::Header::third_of, eblock::specs::Header::second_of))]
pub fn judge_header(len: u64, known: u64, others: u64, head: &[u8]) -> Result<Request, Refusal>
    requires { length head.now ≡ 17 }
    ensures { to_header_request result ≡ request_of len known (others + 1) head.now }
{
    let d = head[0];
    descriptor::accept(d)?;
    let third = big::read(&head[9..17]);
    if descriptor::has(descriptor::EODC, d) {
        return judge_count(known, others, third);
    }
    let second = big::read(&head[1..9]);
    judge_payload(
        len,
        second,
        third,
        descriptor::has(descriptor::SUSPECTED, d),
    )
}
