// The lines that are no screen lines, written to the front of lent bytes; the answer is their length.
ghost use Rattle.std.specs.Prelude.{◌++◌, ◌+◌, ◌≤◌, length};
ghost use Rattle.octets.specs.Decimal.{decimal};
ghost use Rattle.screen.specs.Screen.{line_feed};
ghost use Rattle.nights.specs.Lines.{record_line, left_line};
ghost use Rattle.recordings.specs.Kept.{WritesFront};
ghost use Rattle.recordings.specs.Steps.{WritesText};

use copies::copy;
use octets::decimal;

pub const RECORD: [u8; 7] = *b"RECORD ";

pub const REFUSED: [u8; 8] = *b"REFUSED ";

const LEFT: [u8; 5] = *b"LEFT ";

const LINE_FEED: u8 = 10;

// A word with its space, a number and LF.
pub fn put_number(word: &[u8], n: u64, out: &mut [u8]) -> usize
    requires { length word.now + length (decimal n) + 1 ≤ length out.old }
    ensures { WritesFront (word.now ++ decimal n ++ line_feed) out.old result out.new }
{
    let at = word.len();
    let end = at + decimal::length(n);
    copy::store(out, 0, word, at);
    decimal::write(n, &mut out[at..end]);
    out[end] = LINE_FEED;
    end + 1
}

// The line of a malformed record.
pub fn put_record(number: u64, out: &mut [u8]) -> usize
    requires { 96 ≤ length out.old }
    ensures { WritesText (record_line number) out.old result out.new }
{
    put_number(&RECORD, number, out)
}

// How many bytes of a piece remain; nothing where none does.
pub fn put_left(n: u64, out: &mut [u8]) -> usize
    requires { length (left_line n) ≤ length out.old }
    ensures { WritesFront (left_line n) out.old result out.new }
{
    if n == 0 {
        return 0;
    }
    put_number(&LEFT, n, out)
}
