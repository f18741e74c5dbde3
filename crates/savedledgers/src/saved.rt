// Saved ledgers: bytes of kind 1 and of kind 2 read into a ledger, and a ledger written as bytes of kind 1.
ghost use Rattle.std.specs.Prelude.{◌≡◌, true, ◌*◌, ◌/◌, length};
ghost use Rattle.answers.specs.Refusal.{numbered, refusal_number};
ghost use Rattle.ledger.specs.Pairs.{size, ObeyFrom, ends_at_most};
ghost use Rattle.ledger.specs.Ledger.{pairs_of, laid_out, capacity};
ghost use Rattle.savedrecords.specs.Record.{pairs_in};
ghost use Rattle.savedrecords.specs.declared.kind.SecondNumber.TheVariants.{Length};
ghost use Rattle.savedledgers.specs.Numbers.{number_bytes};
ghost use Rattle.savedledgers.specs.Saved.{read_refusal, read_after, read_saved, read_saved_after, read_sized, read_sized_after, write_saved, write_saved_after};

use answers::refusal::Refusal;
use frames::frame;
use frames::frame::FRAME_LENGTH;
use ledger::rule;
use octets::{entries, little};
use savedrecords::kind::{Kind, SecondNumber};
use savedrecords::pair::Pair;
use savedrecords::record;
use savedrecords::record::PAIR_LENGTH;

// ---- reading

// Refuses bytes that are no record of this kind, or whose pairs can't fill the ledger.
#[tactic(auto, unfolding(crate::specs::Saved::read_refusal, answers::specs::Written::first_refusal), using(answers::proofs::Numbers::above_0))]
fn check(kind: Kind, bytes: &[u8], ledger: &[u64]) -> Result<(), Refusal>
    ensures { refusal_number result ≡ read_refusal kind bytes.now ledger.now }
{
    if rule::length_wrong(ledger) {
        return Err(Refusal::LedgerLength);
    }
    record::check(kind, bytes)?;
    let pairs = record::pair_part(kind, bytes);
    if ledger.len() / 2 < pairs.len() / PAIR_LENGTH {
        return Err(Refusal::TooManyPairs);
    }
    if kind.sized && !record::ends_by(kind, bytes, record::file_length(bytes)) {
        return Err(Refusal::PastFileLength);
    }
    Ok(())
}

// Fills the entries with start and end of each pair.
// Stays: the entries by index. Over `chunks_exact_mut` goal `returns` stayed open, `c.entries-1.given.0 ≡ laid_out ..`: no fact names that value.
fn fill(second: SecondNumber, pairs: &[u8], entries: &mut [u64])
    requires { (length entries.old ≡ 2 * (length pairs.now / 16)) × ObeyFrom 0 (pairs_in second (length pairs.now / 16) pairs.now) × (ends_at_most 18446744073709551615 (pairs_in second (length pairs.now / 16) pairs.now) ≡ true) }
    ensures { entries.new ≡ laid_out (capacity entries.old) (pairs_in second (length pairs.now / 16) pairs.now) }
{
    for (k, bytes) in pairs.chunks_exact(PAIR_LENGTH).enumerate() {
        let next = Pair::first(second, bytes);
        entries[2 * k] = next.start;
        entries[2 * k + 1] = next.start + next.length;
    }
}

// Reads a record of this kind into a ledger, whose entries past the pairs become 0. A refusal leaves the ledger as it is.
#[tactic(auto, unfolding(crate::specs::Saved::read_after), using(answers::proofs::Numbers::above_0))]
fn load(kind: Kind, bytes: &[u8], ledger: &mut [u64]) -> Result<(), Refusal>
    requires { kind.second ≡ Length → kind.sized ≡ true }
    ensures { (refusal_number result ≡ read_refusal kind bytes.now ledger.old) × (ledger.new ≡ read_after kind bytes.now ledger.old) }
{
    check(kind, bytes, ledger)?;
    let pairs = record::pair_part(kind, bytes);
    let filled = 2 * (pairs.len() / PAIR_LENGTH);
    fill(kind.second, pairs, &mut ledger[..filled]);
    entries::clear(&mut ledger[filled..]);
    Ok(())
}

// Reads a saved ledger of kind 1 into a ledger, whose entries past the pairs become 0; a refusal leaves the ledger as it is.
#[tactic(auto, unfolding(crate::specs::Saved::read_saved), using(answers::proofs::Numbers::above_0))]
pub fn read(bytes: &[u8], ledger: &mut [u64]) -> Result<(), Refusal>
    ensures { (numbered result ≡ read_saved bytes.now ledger.old) × (ledger.new ≡ read_saved_after bytes.now ledger.old) }
{
    load(Kind::ONE, bytes, ledger)
}

// The same of kind 2; it answers how long the file is.
#[tactic(auto, unfolding(crate::specs::Saved::read_sized), using(answers::proofs::Numbers::above_0))]
pub fn read_sized(bytes: &[u8], ledger: &mut [u64]) -> Result<u64, Refusal>
    ensures { (numbered result ≡ read_sized bytes.now ledger.old) × (ledger.new ≡ read_sized_after bytes.now ledger.old) }
{
    load(Kind::TWO, bytes, ledger)?;
    Ok(record::file_length(bytes))
}

// ---- writing

// How many pairs are used.
// Stays: a number, where rangelists asks for the pairs themselves; what both could share is ledger's `first_pair`, by which this goes.
#[tactic(auto, unfolding(ledger::specs::Pairs::size, ledger::specs::Ledger::pairs_of))]
fn used_pairs(ledger: &[u64]) -> usize
    ensures { result ≡ size (pairs_of ledger.now) }
{
    let mut used = 0;
    let mut rest = ledger;
    while let Some((_, _, after)) = rule::first_pair(rest) {
        used += 1;
        rest = after;
    }
    used
}

// Writes the numbers in eight bytes each.
// Stays: by index. Over `chunks_exact_mut`, or with `split_at_mut`, `returns` stayed open, `c.out-1.given.0 ≡ number_bytes ..`, as in `fill`.
fn write_numbers(numbers: &[u64], out: &mut [u8])
    requires { length out.old ≡ 8 * length numbers.now }
    ensures { out.new ≡ number_bytes numbers.now }
{
    for (i, &number) in numbers.iter().enumerate() {
        let at = 8 * i;
        little::write(number, &mut out[at..at + 8]);
    }
}

// Writes the used pairs of a ledger as a saved ledger of kind 1 into the first bytes of out.
pub fn write(ledger: &[u64], out: &mut [u8]) -> Result<usize, Refusal>
    ensures { (numbered result ≡ write_saved ledger.now out.old) × (out.new ≡ write_saved_after ledger.now out.old) }
{
    rule::check(ledger)?;
    let used = used_pairs(ledger);
    let n = PAIR_LENGTH * used;
    let end = FRAME_LENGTH + n;
    if out.len() < end {
        return Err(Refusal::TooFewBytes);
    }
    frame::write(Kind::ONE.number, n as u32, out)?;
    write_numbers(&ledger[..2 * used], &mut out[FRAME_LENGTH..end]);
    Ok(end)
}
