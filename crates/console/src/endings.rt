// The end of a transfer.
ghost use Rattle.std.specs.Prelude.{◌≡◌};
ghost use Rattle.console.specs.Console.{ending};
ghost use Rattle.console.specs.Rows.{answer_to};

use crate::state::{Answer, Console};
use verdicts::verdict::Verdict;

#[tactic(auto, unfolding(crate::specs::Rows::row_of))]
pub fn answer(console: Console, verdict: Verdict) -> Answer
    ensures { result ≡ answer_to console (ending verdict) }
{
    if !console.running {
        return console.silent();
    }
    match verdict {
        Verdict::Guess => console.silent(),
        Verdict::Result => console.ended().gets(226),
        Verdict::Suspect => Answer {
            suspect: true,
            ..console.ended().gets(226)
        },
        Verdict::Broken => console.ended().gets(426),
    }
}
