// Kinds 56 to 58: the console.
use crate::body::{Body, Malformed};
use crate::print::begin;
use console::state::{Answer, Console};
use console::{endings, lines, state};
use verdicts::verdict::Verdict;

pub fn begin(rt: &impl Print, console: &mut Console, body: Body) -> Result<(), Malformed> {
    body.end()?;
    *console = state::beginning();
    begin!(rt; "CONSOLE\n");
    Ok(())
}

fn print(rt: &impl Print, answer: Answer) {
    let end = if answer.suspect { " SUSPECT\n" } else { " -\n" };
    begin!(rt; "ANSWER {}{end}", answer.code.unwrap_or(0));
}

pub fn line(rt: &impl Print, console: &mut Console, body: Body) -> Result<(), Malformed> {
    let answer = lines::answer(*console, body.rest());
    *console = answer.console;
    print(rt, answer);
    Ok(())
}

pub fn end(rt: &impl Print, console: &mut Console, mut body: Body) -> Result<(), Malformed> {
    let verdict = match body.u8()? {
        0 => Verdict::Guess,
        1 => Verdict::Result,
        2 => Verdict::Broken,
        3 => Verdict::Suspect,
        _ => return Err(Malformed),
    };
    body.end()?;
    let answer = endings::answer(*console, verdict);
    *console = answer.console;
    print(rt, answer);
    Ok(())
}
