// Bytes of a text by their kind.
ghost use Rattle.std.specs.Prelude.{◌≡◌};
ghost use Rattle.texts.specs.Text.{is_of_kind, leading_count};

// Stays: an enum and no closure, since the definitions speak of each kind (`is_of_kind`), and callers' laws do too.
#[derive(Clone, Copy, Debug, PartialEq, Eq)]
pub enum ByteKind {
    Digit,
    Letter,
    Space,
    // From 32 to 126.
    Printable,
    NotComma,
}

pub fn is_of_kind(kind: ByteKind, b: u8) -> bool
    ensures { result ≡ is_of_kind kind b }
{
    match kind {
        ByteKind::Digit => b.is_ascii_digit(),
        ByteKind::Letter => b.is_ascii_alphabetic(),
        ByteKind::Space => b == b' ',
        ByteKind::Printable => matches!(b, 32..=126),
        ByteKind::NotComma => b != b',',
    }
}

// How many bytes of the kind the text begins with.
pub fn leading(kind: ByteKind, text: &[u8]) -> usize
    ensures { result ≡ leading_count (is_of_kind kind) text.now }
{
    text.iter().take_while(|b| is_of_kind(kind, **b)).count()
}
