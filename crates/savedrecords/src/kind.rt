// The kinds of saved ledger, each a value of one description.
ghost use Rattle.std.specs.Prelude.{◌≡◌};
ghost use Rattle.savedrecords.specs.Kind.{head_length};

// What the second number of a pair is, after its start.
// Stays: an enum and no closure, since the definitions speak of both (`end_of`, `second_of`).
#[derive(Clone, Copy, Debug, PartialEq, Eq)]
pub enum SecondNumber {
    End,
    Length,
}

#[derive(Clone, Copy, Debug, PartialEq, Eq)]
pub struct Kind {
    // What the frame has as its kind.
    pub number: u16,
    // Whether the file length comes before the pairs, in eight bytes.
    pub sized: bool,
    pub second: SecondNumber,
}

impl Kind {
    // Start and end of each pair.
    pub const ONE: Kind = Kind {
        number: 1,
        sized: false,
        second: SecondNumber::End,
    };

    // The file length, then start and length of each pair.
    pub const TWO: Kind = Kind {
        number: 2,
        sized: true,
        second: SecondNumber::Length,
    };

    // How many bytes come between the frame and the pairs.
    pub fn head_length(self) -> usize
        ensures { result ≡ head_length self }
    {
        if self.sized { 8 } else { 0 }
    }
}
