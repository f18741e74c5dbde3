// A line of the control channel.
ghost use Rattle.std.specs.Prelude.{◌≡◌, cond, ◌&&◌, ◌≤◌, length};
ghost use Rattle.answers.specs.Refusal.{number};
ghost use Rattle.commands.specs.Line.{number_of};
ghost use Rattle.hostlists.specs.HostList.{host_count};
ghost use Rattle.rangelists.specs.RangeText.{has_malformed};
ghost use Rattle.console.specs.Console.{line};
ghost use Rattle.console.specs.Rows.{stor, stor_refused, is_e, mode_row, spas_row, port_row, spor_row, refused_row, command_row, outcome, answer_to};

use crate::state::{Answer, Console, Endpoint};
use answers::refusal::Refusal;
use commands::line;
use commands::line::Verb;
use hostlists::list;
use rangelists::ranges;

// Two entries for each of 510 ranges, the most that an argument can have: a range has three bytes or more, and a comma stands between two.
const ENTRIES: usize = 1020;

// ---- what an argument says

// The argument is E, in either case.
fn is_e(text: &[u8]) -> bool
    ensures { result ≡ is_e text.now }
{
    matches!(text, [b'E' | b'e'])
}

fn host_count(text: &[u8]) -> usize
    ensures { result ≡ host_count text.now }
{
    let mut list = [0; list::HOST_LIMIT];
    list::fill(text, &mut list).unwrap_or(0)
}

fn has_malformed(text: &[u8]) -> bool
    requires { length text.now ≤ 2041 }
    ensures { result ≡ has_malformed text.now }
{
    // Stays: fixed memory, no heap.
    let mut ledger = [0; ENTRIES];
    ranges::read(text, &mut ledger).is_err()
}

// ---- the commands

fn mode(console: Console, text: &[u8]) -> Answer
    ensures { result ≡ outcome (mode_row text.now) console }
{
    if is_e(text) {
        console.asked().gets(200)
    } else {
        console.gets(504)
    }
}

fn spas(console: Console) -> Answer
    ensures { result ≡ outcome (spas_row console) console }
{
    if console.extended {
        console.at_endpoint(Endpoint::Listening).gets(229)
    } else {
        console.gets(503)
    }
}

fn port(console: Console, text: &[u8]) -> Answer
    ensures { result ≡ outcome (port_row text.now) console }
{
    if host_count(text) == 1 {
        console.at_endpoint(Endpoint::Connecting).gets(200)
    } else {
        console.gets(501)
    }
}

fn spor(console: Console, text: &[u8]) -> Answer
    ensures { result ≡ outcome (spor_row console text.now) console }
{
    if !console.extended {
        console.gets(503)
    } else if host_count(text) == 0 {
        console.gets(501)
    } else {
        console.at_endpoint(Endpoint::Connecting).gets(200)
    }
}

// STOR and ESTO, with the endpoint that they need or not. RETR and ERET are answered alike.
fn start(console: Console, ready: bool) -> Answer
    ensures { result ≡ outcome (cond (console.extended && ready) stor stor_refused) console }
{
    if console.extended && ready {
        console.started().gets(150)
    } else {
        console.gets(503)
    }
}

// A command with this verb and this argument, where no transfer runs.
fn command(console: Console, verb: Verb, text: &[u8]) -> Answer
    requires { length text.now ≤ 2041 }
    ensures { result ≡ outcome (command_row console (number_of verb) text.now) console }
{
    match verb {
        Verb::Mode => mode(console, text),
        Verb::Pasv => console.at_endpoint(Endpoint::Listening).gets(227),
        Verb::Spas => spas(console),
        Verb::Port => port(console, text),
        Verb::Spor => spor(console, text),
        Verb::Stor | Verb::Esto => start(console, console.endpoint == Endpoint::Listening),
        Verb::Retr | Verb::Eret => start(console, console.endpoint == Endpoint::Connecting),
        Verb::Rest if has_malformed(text) => console.gets(501),
        Verb::Rest => console.gets(350),
        Verb::Sbuf | Verb::Opts => console.gets(200),
    }
}

// A line that is refused.
fn refused(console: Console, refusal: Refusal) -> Answer
    ensures { result ≡ outcome (refused_row (number refusal)) console }
{
    let code = if refusal == Refusal::Argument {
        501
    } else {
        500
    };
    console.gets(code)
}

#[tactic(auto, unfolding(crate::specs::Rows::row_of))]
pub fn answer(console: Console, bytes: &[u8]) -> Answer
    ensures { result ≡ answer_to console (line bytes.now) }
{
    match line::read(bytes) {
        Err(refusal) => refused(console, refusal),
        Ok(_) if console.running => console.gets(503),
        Ok(command_line) => command(console, command_line.verb, line::argument(bytes)),
    }
}
