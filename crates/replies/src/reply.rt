// The class of a reply code.
ghost use Rattle.std.specs.Prelude.{◌≡◌};
ghost use Rattle.answers.specs.Refusal.{numbered};
ghost use Rattle.replies.specs.Reply.{class_of};

use answers::refusal::Refusal;

// What a code announces.
#[derive(Clone, Copy, Debug, PartialEq, Eq)]
pub enum Class {
    Preliminary,
    Completion,
    Intermediate,
    Transient,
    Permanent,
}

#[tactic(auto, unfolding(crate::specs::Reply::class_of))]
pub fn class_of(code: u16) -> Result<Class, Refusal>
    ensures { numbered result ≡ class_of code }
{
    match code {
        100..=199 => Ok(Class::Preliminary),
        200..=299 => Ok(Class::Completion),
        300..=399 => Ok(Class::Intermediate),
        400..=499 => Ok(Class::Transient),
        500..=599 => Ok(Class::Permanent),
        _ => Err(Refusal::ReplyCode),
    }
}
