// Restart range lists, as text.
ghost use Rattle.std.specs.Prelude.{◌≡◌, true, ◌+◌, ◌*◌, ◌≤◌, ◌<◌, length};
ghost use Rattle.std.proofs.lemmas.List.Edits.{sets};
ghost use Rattle.answers.specs.Refusal.{numbered, refusal_number};
ghost use Rattle.ledger.specs.Ledger.{entry_limit, largest, obeys, pairs_of, capacity};
ghost use Rattle.rangelists.specs.RangeText.{position_of, range_of, merge_range, merged_from, Represents, merged, parts, pairs_in, IsUsed, read_ranges, read_ranges_after, separator_after, range_text, ranges_text, write_ranges, write_ranges_after};
ghost use Rattle.answers.specs.WritesAt.{WritesAt};

use answers::refusal::Refusal;
use claims::claim;
use ledger::rule;
use octets::{decimal, entries};
use texts::text;
use texts::text::ByteKind;

// The places from start up to end, end not counted.
// Stays: claims has such a struct too, a private one, since its public functions take two numbers.
#[derive(Clone, Copy, Debug, PartialEq, Eq)]
pub struct Range {
    pub start: u64,
    pub end: u64,
}

// The largest number that a range may name, 2 ^ 64 - 2: the place after it is a 64-bit number.
const LAST_LIMIT: u64 = 18446744073709551614;
// The most digits that a number may have, leading zeros counted.
const DIGIT_LIMIT: usize = 20;

// ---- the writer

// The used pairs of a ledger: those before the first whose end is 0.
fn used_pairs(ledger: &[u64]) -> &[[u64; 2]]
    ensures { IsUsed result.now (pairs_of ledger.now) }
{
    let (pairs, _) = ledger.as_chunks::<2>();
    let used = pairs
        .iter()
        .position(|pair| pair[1] == 0)
        .unwrap_or(pairs.len());
    &pairs[..used]
}

// The number of bytes of the range from a up to b.
// Stays: lengths are counted apart from the bytes, here and below: nothing may be written where not all of it has room.
fn range_text_length(a: u64, b: u64) -> usize
    requires { 0 < b }
    ensures { (result ≡ length (range_text a b)) × (result ≤ 41) }
{
    decimal::length(a) + 1 + decimal::length(b - 1)
}

// Writes the range from a up to b at a place, and answers the place after it.
// Stays: places by hand: screen's Line holds its 116 bytes itself; these are lent, and can be more than fixed memory holds.
fn put_range(out: &mut [u8], at: usize, a: u64, b: u64) -> usize
    requires { (0 < b) × (at + length (range_text a b) ≤ length out.old) }
    ensures { WritesAt out.old at (range_text a b) result out.new }
{
    let hyphen = at + decimal::length(a);
    decimal::write(a, &mut out[at..hyphen]);
    out[hyphen] = b'-';
    let last = b - 1;
    let from = hyphen + 1;
    let end = from + decimal::length(last);
    decimal::write(last, &mut out[from..end]);
    end
}

// The number of bytes up to the next range where n are written: a comma more, unless it is the first.
fn after_comma(n: usize) -> usize
    requires { n < largest }
    ensures { result ≡ n + length (separator_after n) }
{
    if n == 0 { 0 } else { n + 1 }
}

// The number of bytes of the ranges of used pairs.
fn list_text_length(pairs: &[[u64; 2]]) -> usize
    requires few { 2 * length pairs.now ≤ entry_limit }
    requires used { IsUsed pairs.now (pairs_in pairs.now) }
    ensures { result ≡ length (ranges_text (pairs_in pairs.now)) }
{
    let mut n = 0;
    for &[a, b] in pairs {
        n = after_comma(n) + range_text_length(a, b);
    }
    n
}

// Writes a comma after n bytes, unless there are none, and answers the place after it.
fn put_comma(out: &mut [u8], n: usize) -> usize
    requires { n + length (separator_after n) ≤ length out.old }
    ensures { WritesAt out.old n (separator_after n) result out.new }
{
    if n != 0 {
        out[n] = b',';
    }
    after_comma(n)
}

// Writes the ranges of used pairs.
fn put_list(pairs: &[[u64; 2]], out: &mut [u8])
    requires fits { length (ranges_text (pairs_in pairs.now)) ≤ length out.old }
    requires used { IsUsed pairs.now (pairs_in pairs.now) }
    ensures { out.new ≡ sets out.old 0 (ranges_text (pairs_in pairs.now)) }
{
    let mut n = 0;
    for &[a, b] in pairs {
        let from = put_comma(out, n);
        n = put_range(out, from, a, b);
    }
}

pub fn write(ledger: &[u64], out: &mut [u8]) -> Result<usize, Refusal>
    ensures { (numbered result ≡ write_ranges ledger.now out.old) × (out.new ≡ write_ranges_after ledger.now out.old) }
{
    rule::check(ledger)?;
    let pairs = used_pairs(ledger);
    if pairs.is_empty() {
        return Err(Refusal::EmptyLedger);
    }
    let n = list_text_length(pairs);
    if out.len() < n {
        return Err(Refusal::TooFewBytes);
    }
    put_list(pairs, out);
    Ok(n)
}

// ---- the reader

// A number of 1 to 20 digits, at most the largest that a range may name.
fn read_position(text: &[u8]) -> Option<u64>
    ensures { result ≡ position_of text.now }
{
    if DIGIT_LIMIT < text.len() {
        return None;
    }
    decimal::read(text, LAST_LIMIT)
}

// What all of the text between two commas says.
fn read_range(text: &[u8]) -> Option<Range>
    ensures { result ≡ range_of text.now }
{
    let digits = text::leading(ByteKind::Digit, text);
    if *text.get(digits)? != b'-' {
        return None;
    }
    let start = read_position(&text[..digits])?;
    let last = read_position(&text[digits + 1..])?;
    if last < start {
        return None;
    }
    Some(Range {
        start,
        end: last + 1,
    })
}

// Joins the range that a text says to the ledger.
// Stays: the rule is a premise, here and below: `Ruled` lends a ledger to be read, and this one changes.
fn join_text(text: &[u8], ledger: &mut [u64]) -> Result<(), Refusal>
    requires { obeys ledger.old ≡ true }
    ensures { Represents (merge_range (capacity ledger.old) (pairs_of ledger.old) (range_of text.now) merged) (refusal_number result) ledger.new }
{
    let range = read_range(text).ok_or(Refusal::MalformedRanges)?;
    claim::join(ledger, range.start, range.end)
}

// Joins the ranges of a list to the ledger, in reading order, up to the first trouble.
fn join_list(text: &[u8], ledger: &mut [u64]) -> Result<(), Refusal>
    requires { obeys ledger.old ≡ true }
    ensures { Represents (merged_from (capacity ledger.old) (pairs_of ledger.old) (parts text.now)) (refusal_number result) ledger.new }
{
    for part in text.split(|b| !text::is_of_kind(ByteKind::NotComma, *b)) {
        join_text(part, ledger)?;
    }
    Ok(())
}

pub fn read(text: &[u8], ledger: &mut [u64]) -> Result<(), Refusal>
    ensures { (numbered result ≡ read_ranges text.now ledger.old) × (ledger.new ≡ read_ranges_after text.now ledger.old) }
{
    if rule::length_wrong(ledger) {
        return Err(Refusal::LedgerLength);
    }
    entries::clear(ledger);
    let answer = join_list(text, ledger);
    if answer.is_err() {
        entries::clear(ledger);
    }
    answer
}
