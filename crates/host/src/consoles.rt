// The console. Its state goes in and comes back as numbers, of which every one means something.
ghost use Rattle.std.specs.Prelude.{◌≡◌};
ghost use Rattle.console.specs.Console.{line, ending};
ghost use Rattle.console.specs.Rows.{answer_to};
ghost use Rattle.host.specs.Consoles.{endpoint_meant, endpoint_code, verdict_meant, console_meant, numbers_of, answered_by};

use console::state::{Answer, Console, Endpoint};
use console::{endings, lines};
use verdicts::verdict::Verdict;

// Stays: a C host may put any number there, so the parts of the state are numbers, and each number means something.
#[repr(C)]
#[derive(Clone, Copy)]
pub struct ConsoleNumbers {
    // 1 where MODE E was asked for; any other number but 0 says the same.
    pub extended: u8,
    // 1 listening, 2 connecting; any other number says no endpoint.
    pub endpoint: u8,
    // 1 where a transfer is running; any other number but 0 says the same.
    pub running: u8,
}

// Stays: a C struct holds no enum with values, so a refusal, a kind and a code are numbers, 0 for none.
#[repr(C)]
#[derive(Clone, Copy)]
pub struct Answered {
    // The console from now on.
    pub console: ConsoleNumbers,
    // The code, 0 where there is none.
    pub code: u16,
    // 1 where the word SUSPECT goes with it, else 0.
    pub suspect: u8,
}

// Stays: the numbers are C's, and each of 256 means something, so no From or TryFrom of the console's crate, here and below.
fn endpoint_meant(n: u8) -> Endpoint
    ensures { result ≡ endpoint_meant n }
{
    match n {
        1 => Endpoint::Listening,
        2 => Endpoint::Connecting,
        _ => Endpoint::None,
    }
}

fn endpoint_code(e: Endpoint) -> u8
    ensures { result ≡ endpoint_code e }
{
    match e {
        Endpoint::None => 0,
        Endpoint::Listening => 1,
        Endpoint::Connecting => 2,
    }
}

// Any number but 1, 2 and 3 says GUESS.
fn verdict_meant(n: u8) -> Verdict
    ensures { result ≡ verdict_meant n }
{
    match n {
        1 => Verdict::Result,
        2 => Verdict::Broken,
        3 => Verdict::Suspect,
        _ => Verdict::Guess,
    }
}

impl From<ConsoleNumbers> for Console {
    ghost from_gives = { λ numbers console. console ≡ console_meant numbers };

    fn from(numbers: ConsoleNumbers) -> Console {
        Console {
            extended: numbers.extended != 0,
            endpoint: endpoint_meant(numbers.endpoint),
            running: numbers.running != 0,
        }
    }
}

impl From<Console> for ConsoleNumbers {
    ghost from_gives = { λ console numbers. numbers ≡ numbers_of console };

    fn from(console: Console) -> ConsoleNumbers {
        ConsoleNumbers {
            extended: u8::from(console.extended),
            endpoint: endpoint_code(console.endpoint),
            running: u8::from(console.running),
        }
    }
}

impl From<Answer> for Answered {
    ghost from_gives = { λ answer answered. answered ≡ answered_by answer };

    fn from(answer: Answer) -> Answered {
        Answered {
            console: ConsoleNumbers::from(answer.console),
            code: answer.code.unwrap_or(0),
            suspect: u8::from(answer.suspect),
        }
    }
}

#[unsafe(no_mangle)]
pub extern "C" fn cob_console_line(console: ConsoleNumbers, bytes: &[u8]) -> Answered
    ensures { result ≡ answered_by (answer_to (console_meant console) (line bytes.now)) }
{
    Answered::from(lines::answer(Console::from(console), bytes))
}

#[unsafe(no_mangle)]
pub extern "C" fn cob_console_end(console: ConsoleNumbers, verdict: u8) -> Answered
    ensures { result ≡ answered_by (answer_to (console_meant console) (ending (verdict_meant verdict))) }
{
    Answered::from(endings::answer(Console::from(console), verdict_meant(verdict)))
}
