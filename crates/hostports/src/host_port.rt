// One host-port at a place of a text, and the reader that holds the text.
ghost use Rattle.std.specs.Prelude.{◌≡◌};
ghost use Rattle.hostports.specs.HostPort.{number_at, host_port_at};

use octets::decimal;
use texts::text;
use texts::text::ByteKind;

const COMMA: u8 = b',';

// How many numbers a host-port has.
const NUMBERS: usize = 6;

// What a number or a host-port at a place of a text says, and the place after it.
#[derive(Clone, Copy, Debug, PartialEq, Eq)]
pub struct Parsed {
    pub value: u64,
    pub next: usize,
}

// One of the six numbers: 1 to 3 digits, the first not 0 where there are two or three, and at most 255 in value.
fn number_at(text: &[u8], at: usize) -> Option<Parsed>
    ensures { result ≡ number_at text.now at }
{
    let rest = text.get(at..)?;
    let digits = text::leading(ByteKind::Digit, rest);
    if 3 < digits {
        return None;
    }
    if 1 < digits && rest[0] == b'0' {
        return None;
    }
    let value = decimal::read(&rest[..digits], 255)?;
    Some(Parsed {
        value,
        next: at + digits,
    })
}

// Six numbers, a comma before each but the first, the last two not both 0. The value is address * 65,536 + port.
fn host_port_at(text: &[u8], at: usize) -> Option<Parsed>
    ensures { result ≡ host_port_at text.now at }
{
    let mut read = number_at(text, at)?;
    for _ in 1..NUMBERS {
        if *text.get(read.next)? != COMMA {
            return None;
        }
        let number = number_at(text, read.next + 1)?;
        read = Parsed {
            value: read.value * 256 + number.value,
            next: number.next,
        };
    }
    if read.value % 65536 == 0 {
        return None;
    }
    Some(read)
}

// A text and a place in it.
#[derive(Clone, Copy)]
pub struct Reader<'a> {
    pub text: &'a [u8],
    pub at: usize,
}

impl<'a> Reader<'a> {
    // A reader at the start of a text.
    pub fn new(text: &'a [u8]) -> Reader<'a>
        ensures { (result.text ≡ text.entry) × (result.at ≡ 0) }
    {
        Reader { text, at: 0 }
    }

    // The reader at another place of its text.
    pub fn moved(self, at: usize) -> Reader<'a>
        ensures { (result.text ≡ self.entry.text) × (result.at ≡ at) }
    {
        Reader { at, ..self }
    }

    // The host-port at the reader's place.
    pub fn next(self) -> Option<Parsed>
        ensures { result ≡ host_port_at self.entry.text.now self.entry.at }
    {
        host_port_at(self.text, self.at)
    }
}

// The host-port at a place of a text, for a caller that holds no reader.
pub fn read_at(text: &[u8], at: usize) -> Option<Parsed>
    ensures { result ≡ host_port_at text.now at }
{
    Reader::new(text).moved(at).next()
}
