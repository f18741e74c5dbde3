// The lines, on standard output.
use answers::refusal::Refusal;
use std::fmt;
use std::fmt::Write;

// Standard output, for the pieces that a line is put together from: a word, the blank after it, a number, the two digits of a byte, the end.
// Each is a write of its own. One that fails is passed over, and the next one tried.
#[derive(Clone, Copy)]
struct Pieces<'a, P> {
    rt: &'a P,
}

impl<P: Print> fmt::Write for Pieces<'_, P> {
    fn write_str(&mut self, piece: &str) -> fmt::Result {
        let _ = self.rt.write_all(piece.as_bytes());
        Ok(())
    }
}

pub fn text<D: fmt::Display + Drop>(rt: &impl Print, text: D) {
    let mut pieces = Pieces { rt };
    let _ = pieces.write(text);
}

pub fn line<D: fmt::Display + Drop>(rt: &impl Print, line: D) {
    text(rt, line);
    text(rt, "\n");
}

// Prints a line, and its end apart.
macro_rules! say {
    ($rt:expr; $($line:tt)+) => {{
        $crate::print::line($rt, format_args!($($line)+));
    }};
}

pub(crate) use say;

// The beginning of a line, or a line with its end.
macro_rules! begin {
    ($rt:expr; $($text:tt)+) => {{
        $crate::print::text($rt, format_args!($($text)+));
    }};
}

pub(crate) use begin;

// What an answer holds, or its refusal.
#[derive(Clone, Copy)]
pub struct Said<T>(pub Result<T, Refusal>);

impl<T: fmt::Display> fmt::Display for Said<T> {
    fn fmt<W: fmt::Write>(&self, f: &mut fmt::Formatter<W>) -> fmt::Result {
        match &self.0 {
            Ok(value) => write!(f, "{value}"),
            Err(refusal) => write!(f, "REFUSED {refusal}"),
        }
    }
}

// A word with the blank after it and the number that belongs to it, or a refusal.
#[derive(Clone, Copy)]
pub struct Counted<'a>(pub &'a str, pub Result<usize, Refusal>);

impl fmt::Display for Counted<'_> {
    fn fmt<W: fmt::Write>(&self, f: &mut fmt::Formatter<W>) -> fmt::Result {
        match self.1 {
            Ok(n) => write!(f, "{}{n}", self.0),
            Err(refusal) => write!(f, "REFUSED {refusal}"),
        }
    }
}

const DIGITS: [u8; 16] = *b"0123456789abcdef";

// The last word of a line, with the blank before it: bytes, two digits each.
#[derive(Clone, Copy)]
pub struct Hex<'a>(pub &'a [u8]);

impl fmt::Display for Hex<'_> {
    fn fmt<W: fmt::Write>(&self, f: &mut fmt::Formatter<W>) -> fmt::Result {
        f.write_str(" ")?;
        if self.0.is_empty() {
            return f.write_str("-");
        }
        for byte in self.0 {
            let pair = [
                DIGITS[usize::from(*byte / 16)],
                DIGITS[usize::from(*byte % 16)],
            ];
            f.write_str(str::from_utf8(&pair).map_err(|_| fmt::Error)?)?;
        }
        Ok(())
    }
}

// The last word of a line, with the blank before it: numbers with commas between.
#[derive(Clone, Copy)]
pub struct Numbers<'a>(pub &'a [u64]);

impl fmt::Display for Numbers<'_> {
    fn fmt<W: fmt::Write>(&self, f: &mut fmt::Formatter<W>) -> fmt::Result {
        f.write_str(" ")?;
        let Some((first, rest)) = self.0.split_first() else {
            return f.write_str("-");
        };
        write!(f, "{first}")?;
        for n in rest {
            write!(f, ",{n}")?;
        }
        Ok(())
    }
}

// Up to the last entry that is not 0.
pub fn used(entries: &[u64]) -> Numbers<'_> {
    let count = entries
        .iter()
        .rposition(|n| *n != 0)
        .map_or(0, |last| last + 1);
    Numbers(&entries[..count])
}
