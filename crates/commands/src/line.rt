// Command lines.
ghost use Rattle.std.specs.Prelude.{◌≡◌, eqb, get_or};
ghost use Rattle.commands.specs.Line.{takes_no_argument, verb_number, number_of, found_number, said, read_text_of, read_of, argument_of};

use answers::refusal::Refusal;
use texts::text::{ByteKind, leading};

// The longest line, CR LF counted.
pub const LINE_LIMIT: usize = 2048;

#[derive(Clone, Copy, Debug, PartialEq, Eq)]
pub enum Verb {
    Mode,
    Pasv,
    Port,
    Rest,
    Retr,
    Stor,
    Spas,
    Spor,
    Eret,
    Esto,
    Sbuf,
    Opts,
}

impl Verb {
    fn takes_no_argument(self) -> bool
        ensures { result ≡ takes_no_argument (number_of self) }
    {
        matches!(self, Verb::Pasv | Verb::Spas)
    }
}

// The verb's place in the table, from 1.
impl From<Verb> for u8 {
    ghost from_gives = { λ v n. n ≡ number_of v };

    fn from(verb: Verb) -> u8 {
        match verb {
            Verb::Mode => 1,
            Verb::Pasv => 2,
            Verb::Port => 3,
            Verb::Rest => 4,
            Verb::Retr => 5,
            Verb::Stor => 6,
            Verb::Spas => 7,
            Verb::Spor => 8,
            Verb::Eret => 9,
            Verb::Esto => 10,
            Verb::Sbuf => 11,
            Verb::Opts => 12,
        }
    }
}

// The verbs by their names.
const VERBS: [([u8; 4], Verb); 12] = [
    (*b"MODE", Verb::Mode),
    (*b"PASV", Verb::Pasv),
    (*b"PORT", Verb::Port),
    (*b"REST", Verb::Rest),
    (*b"RETR", Verb::Retr),
    (*b"STOR", Verb::Stor),
    (*b"SPAS", Verb::Spas),
    (*b"SPOR", Verb::Spor),
    (*b"ERET", Verb::Eret),
    (*b"ESTO", Verb::Esto),
    (*b"SBUF", Verb::Sbuf),
    (*b"OPTS", Verb::Opts),
];

// What an accepted line says: its verb, and the places of its argument in the line.
#[derive(Clone, Copy, Debug, PartialEq, Eq)]
pub struct Command {
    pub verb: Verb,
    pub from: usize,
    pub to: usize,
}

// The verb that the word is, in letters of either case.
fn verb_of(word: &[u8]) -> Option<Verb>
    ensures { found_number result ≡ verb_number word.now }
{
    let Ok(mut upper) = <[u8; 4]>::try_from(word) else {
        return None;
    };
    upper.make_ascii_uppercase();
    for (name, verb) in &VERBS {
        if *name == upper {
            return Some(*verb);
        }
    }
    None
}

// Whether a word ends before this rest of a text: where a space follows it, or nothing does.
fn ends_word(rest: &[u8]) -> bool
    ensures { result ≡ eqb (get_or rest.now 0 32) 32 }
{
    rest.is_empty() || rest[0] == b' '
}

// What the bytes before CR LF say.
fn read_text(text: &[u8]) -> Result<Command, Refusal>
    ensures { said result ≡ read_text_of text.now }
{
    let to = text.len();
    let end = leading(ByteKind::Letter, text);
    let (word, rest) = text.split_at(end);
    let Some(verb) = verb_of(word) else {
        return Err(Refusal::NoSuchVerb);
    };
    if !ends_word(rest) {
        return Err(Refusal::NoSuchVerb);
    }
    let from = end + leading(ByteKind::Space, rest);
    let accepted = if verb.takes_no_argument() {
        rest.is_empty()
    } else {
        from < to
    };
    if !accepted {
        return Err(Refusal::Argument);
    }
    Ok(Command { verb, from, to })
}

pub fn read(line: &[u8]) -> Result<Command, Refusal>
    ensures { said result ≡ read_of line.now }
{
    if LINE_LIMIT < line.len() {
        return Err(Refusal::LineTooLong);
    }
    let Some(text) = line.strip_suffix(b"\r\n") else {
        return Err(Refusal::NoLineEnd);
    };
    if leading(ByteKind::Printable, text) < text.len() {
        return Err(Refusal::UnprintableByte);
    }
    read_text(text)
}

// The part of the line that is the argument; no byte where the line is refused or its verb takes none.
pub fn argument(line: &[u8]) -> &[u8]
    ensures { result.now ≡ argument_of (read_of line.now) line.now }
{
    let Ok(Command { from, to, .. }) = read(line) else {
        return &line[..0];
    };
    &line[from..to]
}
