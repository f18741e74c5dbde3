// What every writer answers, and the number in any answer.
ghost use Rattle.std.specs.Prelude.{◌≡◌};
ghost use Rattle.answers.specs.Refusal.{numbered, refusal_number};
ghost use Rattle.host.specs.Written.{written_of};

use answers::refusal::Refusal;

// Stays: a C struct holds no enum with values, so a refusal, a kind and a code are numbers, 0 for none.
#[repr(C)]
#[derive(Clone, Copy)]
pub struct Written {
    // The bytes written, the first of those lent.
    pub length: usize,
    pub refused: u8,
}

impl From<Result<usize, Refusal>> for Written {
    ghost from_gives = { λ answer written. written ≡ written_of (numbered answer) };

    fn from(answer: Result<usize, Refusal>) -> Written {
        match answer {
            Ok(length) => Written { length, refused: 0 },
            Err(refusal) => Written {
                length: 0,
                refused: u8::from(refusal),
            },
        }
    }
}

// 0 where nothing is refused.
pub(crate) fn number_of(answer: Result<(), Refusal>) -> u8
    ensures { result ≡ refusal_number answer }
{
    match answer {
        Ok(()) => 0,
        Err(refusal) => u8::from(refusal),
    }
}
