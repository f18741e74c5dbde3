// Reply codes.
ghost use Rattle.std.specs.Prelude.{◌≡◌, Ok};
ghost use Rattle.answers.specs.Refusal.{number_in};
ghost use Rattle.replies.specs.Reply.{class_of, first_digit};

use replies::reply;
use replies::reply::Class;

// Stays: a C struct holds no enum with values, so a refusal, a kind and a code are numbers, 0 for none.
#[repr(C)]
#[derive(Clone, Copy)]
pub struct Reply {
    // 1 preliminary, 2 completion, 3 intermediate, 4 transient, 5 permanent.
    pub digit: u8,
    pub refused: u8,
}

// Stays: the digits are C's (`first_digit`), and no crate but host and probe asks for them.
#[tactic(auto, unfolding(replies::specs::Reply::first_digit))]
fn digit_of(class: Class) -> u8
    ensures { result ≡ first_digit (Ok class) }
{
    match class {
        Class::Preliminary => 1,
        Class::Completion => 2,
        Class::Intermediate => 3,
        Class::Transient => 4,
        Class::Permanent => 5,
    }
}

#[unsafe(no_mangle)]
#[tactic(auto, unfolding(replies::specs::Reply::first_digit))]
pub extern "C" fn cob_reply_class(code: u16) -> Reply
    ensures { (result.digit ≡ first_digit (class_of code)) × (result.refused ≡ number_in (class_of code)) }
{
    match reply::class_of(code) {
        Ok(class) => Reply {
            digit: digit_of(class),
            refused: 0,
        },
        Err(refusal) => Reply {
            digit: 0,
            refused: u8::from(refusal),
        },
    }
}
