// Claiming a range in a ledger, in place: first the judgement, which only reads, then the change, which cannot fail.
ghost use Rattle.std.specs.Prelude.{◌≡◌, true, ◌+◌, ◌*◌, ◌-◌, ◌≤◌, ◌<◌, min, max, get_or, set};
ghost use Rattle.answers.specs.Refusal.{numbered};
ghost use Rattle.ledger.specs.Pairs.{size, join, count_ending_below, count_starting_by};
ghost use Rattle.ledger.specs.Ledger.{obeys, pairs_of, laid_out, capacity};
ghost use Rattle.claims.specs.Claim.{slot_of, JudgeResult, PutResult, JoinResult};
ghost use Rattle.claims.specs.Neighbours.{pair_at, shared_by, slot_by, lacks_pair, judged_by};
ghost use Rattle.claims.specs.Shift.{inserted, closed};

use crate::shift;
use answers::refusal::Refusal;
use ledger::{place, rule};
use rangechecks::search;

// The places from start up to end.
// Stays: judge, put and join take the two numbers, since docs/PROMISES.md names them and they keep their parameters.
#[derive(Clone, Copy, Debug, PartialEq, Eq)]
struct Range {
    start: u64,
    end: u64,
}

// Where a range goes: the pairs that it becomes one with are those from `at` up to `past`, counted in pairs.
#[derive(Clone, Copy, Debug, PartialEq, Eq)]
pub struct Slot {
    pub at: usize,
    pub past: usize,
}

// Whether the pair with the number i shares a byte with the range. A pair past the last shares none.
#[tactic(auto, unfolding(crate::specs::Neighbours::shared_by))]
fn shares(ledger: &[u64], i: usize, range: Range) -> bool
    ensures { result ≡ shared_by range.start range.end (pair_at ledger.now i) }
{
    i < ledger.len() / 2 && range.start < ledger[2 * i + 1] && ledger[2 * i] < range.end
}

// Where a range to end goes that shares no byte: the pair at its place and the one after it may touch it.
#[tactic(auto, unfolding(crate::specs::Neighbours::slot_by, crate::specs::Neighbours::starts_by))]
fn slot_at(ledger: &[u64], at: usize, end: u64) -> Slot
    requires { at ≤ capacity ledger.now }
    ensures { result ≡ slot_by end at (pair_at ledger.now at) (pair_at ledger.now (at + 1)) }
{
    if !search::pair_starts_by(ledger, at, end) {
        Slot { at, past: at }
    } else if !search::pair_starts_by(ledger, at + 1, end) {
        Slot { at, past: at + 1 }
    } else {
        Slot { at, past: at + 2 }
    }
}

// Whether the ledger lacks a pair for a range that goes there. In a ledger that obeys the rule the last pair is used only where all are.
#[tactic(auto, unfolding(crate::specs::Neighbours::lacks_pair))]
fn full(ledger: &[u64], slot: Slot) -> bool
    ensures { result ≡ lacks_pair (capacity ledger.now) slot (pair_at ledger.now (capacity ledger.now - 1)) }
{
    let room = ledger.len() / 2;
    slot.at == slot.past && (room == 0 || 0 < ledger[2 * room - 1])
}

// Judges the range, with this place: it reads the pair there, the one after it and the ledger's last.
#[tactic(auto, unfolding(crate::specs::Neighbours::judged_by))]
fn judge_at(ledger: &[u64], at: usize, range: Range) -> Result<Slot, Refusal>
    requires { at ≤ capacity ledger.now }
    ensures { numbered result ≡ judged_by (capacity ledger.now) range.start range.end at (pair_at ledger.now at) (pair_at ledger.now (at + 1)) (pair_at ledger.now (capacity ledger.now - 1)) }
{
    if shares(ledger, at, range) || shares(ledger, at + 1, range) {
        return Err(Refusal::Overlap);
    }
    let slot = slot_at(ledger, at, range.end);
    if full(ledger, slot) {
        return Err(Refusal::LedgerFull);
    }
    Ok(slot)
}

// Where the range from start to end can be claimed, or the refusal: it shares a byte with a claimed one, or the ledger lacks a pair for it. For a
// ledger that breaks the rule, or an empty range, the answer is left open, but that a slot lies inside the ledger and that a refusal is 17 or 18:
// document 01 has no such call.
// Stays: the rule is a premise, here and of put and join, and no type, since the three answer any list.
#[tactic(auto, using(crate::proofs::JudgedByPlace::judging))]
pub fn judge(ledger: &[u64], start: u64, end: u64) -> Result<Slot, Refusal>
    ensures { JudgeResult start end ledger.now (numbered result) }
{
    let found = place::find(ledger, start);
    judge_at(ledger, found.at, Range { start, end })
}

// The number of pairs that start by end: those that end below it, and the one at its place where that one starts by it.
// Stays: the rule is a premise here and below, since join and put, which these serve, answer any list.
fn starting_by(ledger: &[u64], end: u64) -> usize
    ensures { (result ≤ capacity ledger.now) × (obeys ledger.now ≡ true → result ≡ count_starting_by end (pairs_of ledger.now)) }
{
    let found = place::find(ledger, end);
    if search::pair_starts_by(ledger, found.at, end) {
        found.at + 1
    } else {
        found.at
    }
}

// The same, or `at` where that is more, as it can be in a list that breaks the rule.
fn first_pair_after(ledger: &[u64], at: usize, end: u64) -> usize
    requires { at ≤ capacity ledger.now }
    ensures { (at ≤ result) × (result ≤ capacity ledger.now) × (obeys ledger.now ≡ true → at ≤ count_starting_by end (pairs_of ledger.now) → result ≡ count_starting_by end (pairs_of ledger.now)) }
{
    starting_by(ledger, end).max(at)
}

// Where the range goes, whatever it shares.
#[tactic(auto, using(crate::proofs::JoinRoom::slots), unfolding(crate::specs::Claim::slot_of))]
fn locate(ledger: &[u64], range: Range) -> Slot
    ensures { (result.at ≤ result.past) × (result.past ≤ capacity ledger.now) × (obeys ledger.now ≡ true → range.start < range.end → result ≡ slot_of range.start range.end (pairs_of ledger.now)) }
{
    let found = place::find(ledger, range.start);
    Slot {
        at: found.at,
        past: first_pair_after(ledger, found.at, range.end),
    }
}

// Makes one pair of those of the slot and the range.
fn widen(ledger: &mut [u64], slot: Slot, used: usize, range: Range)
    requires { (slot.at < slot.past) × (slot.past ≤ used) × (used ≤ capacity ledger.old) }
    ensures { ledger.new ≡ closed (set (set ledger.old (2 * slot.at) (min (get_or ledger.old (2 * slot.at) 0) range.start)) (2 * slot.at + 1) (max (get_or ledger.old (2 * slot.past - 1) 0) range.end)) (2 * slot.at + 2) (2 * slot.past) (2 * used) }
{
    let first = 2 * slot.at;
    let after = 2 * slot.past;
    let a = ledger[first].min(range.start);
    let b = ledger[after - 1].max(range.end);
    ledger[first] = a;
    ledger[first + 1] = b;
    shift::close(ledger, first + 2, after, 2 * used);
}

// Makes a pair of its own at `at` of the range, where not all pairs are used.
fn put_own(ledger: &mut [u64], at: usize, used: usize, range: Range)
    requires { (at ≤ used) × (used ≤ capacity ledger.old) }
    ensures { used < capacity ledger.old → ledger.new ≡ inserted ledger.old (2 * at) (2 * used) range.start range.end }
{
    if used < ledger.len() / 2 {
        shift::insert(ledger, 2 * at, 2 * used, range.start, range.end);
    }
}

// Makes one pair of the range and the pairs of the slot, or a pair of its own, where there is one for it.
fn merge(ledger: &mut [u64], slot: Slot, range: Range)
    requires { (slot.at ≤ slot.past) × (slot.past ≤ capacity ledger.old) }
    ensures { obeys ledger.old ≡ true → range.start < range.end → slot ≡ slot_of range.start range.end (pairs_of ledger.old) → size (join range.start range.end (pairs_of ledger.old)) ≤ capacity ledger.old → ledger.new ≡ laid_out (capacity ledger.old) (join range.start range.end (pairs_of ledger.old)) }
{
    let used = first_pair_after(ledger, slot.past, rule::LARGEST);
    if slot.at == slot.past {
        put_own(ledger, slot.at, used, range);
    } else {
        widen(ledger, slot, used, range);
    }
}

// Claims the range from start to end at the slot that `judge` answered for it. For any other slot, a ledger that breaks the rule or an empty
// range the entries are left open, but for their number: document 01 has no such call.
#[tactic(auto, using(crate::proofs::Judged::putting))]
pub fn put(ledger: &mut [u64], slot: Slot, start: u64, end: u64)
    ensures { PutResult slot start end ledger.old ledger.new }
{
    if slot.at <= slot.past && slot.past <= ledger.len() / 2 {
        merge(ledger, slot, Range { start, end });
    }
}

// Joins the range from start to end to the ledger, whatever it shares, or leaves it and refuses, where it has no pair for that. For a
// ledger that breaks the rule, or an empty range, the rest is left open: document 01 has no such call.
pub fn join(ledger: &mut [u64], start: u64, end: u64) -> Result<(), Refusal>
    ensures { JoinResult start end ledger.old (numbered result) ledger.new }
{
    let range = Range { start, end };
    let found = locate(ledger, range);
    if full(ledger, found) {
        return Err(Refusal::TooFewPairs);
    }
    merge(ledger, found, range);
    Ok(())
}
