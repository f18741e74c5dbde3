// The held bytes of headers.
ghost use Rattle.std.specs.Prelude.{◌≡◌, true, ◌≤◌, length, drop};
ghost use Rattle.ledger.specs.Ledger.{all_zero};

// Stays: ledger asks this of u64 entries, by blocks of 64; one function of both widths would need a trait with the laws of `|` and 0 for one line.
// Whether the bytes are all 0. It reads them all, so that the compiler can make vector code of it.
pub fn all_zero(bytes: &[u8]) -> bool
    ensures { result ≡ all_zero bytes.now }
{
    bytes.iter().fold(0, |any: u8, byte| any | *byte) == 0
}

// The bytes that a channel can hold of a header, and whether all of them are known to be 0.
#[derive(Drop)]
pub struct Held<'a> {
    pub bytes: &'a [u8],
    pub clean: bool,
    ghost known: { clean ≡ true → all_zero bytes.now ≡ true },
}

impl<'a> Held<'a> {
    // Whether those from so many on are all 0; none is read where all are known to be.
    pub fn zero_from(&self, from: usize) -> bool
        requires { from ≤ length self.now.bytes.now }
        ensures { result ≡ all_zero (drop from self.now.bytes.now) }
    {
        self.clean || all_zero(&self.bytes[from..])
    }
}
