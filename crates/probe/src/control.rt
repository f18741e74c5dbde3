// Kinds 34 to 36: the control channel.
use crate::body::{Body, Malformed};
use crate::part::{ENTRY, front};
use crate::print::{Counted, Hex, Numbers, say};
use commands::line;
use hostlists::list;
use replies::reply;
use replies::reply::Class;

pub fn command(rt: &impl Print, body: Body) -> Result<(), Malformed> {
    let text = body.rest();
    match line::read(text) {
        Ok(command) => say!(rt; "VERB {}{}", u8::from(command.verb), Hex(line::argument(text))),
        Err(refusal) => say!(rt; "REFUSED {refusal}"),
    }
    Ok(())
}

fn digit(class: Class) -> usize {
    match class {
        Class::Preliminary => 1,
        Class::Completion => 2,
        Class::Intermediate => 3,
        Class::Transient => 4,
        Class::Permanent => 5,
    }
}

pub fn reply(rt: &impl Print, mut body: Body) -> Result<(), Malformed> {
    let code = body.u16()?;
    body.end()?;
    say!(rt; "{}", Counted("CLASS ", reply::class_of(code).map(digit)));
    Ok(())
}

pub fn host_ports(rt: &impl Print, mut body: Body) -> Result<(), Malformed> {
    // Stays: fixed memory, no heap.
    let mut space = [ENTRY; 200];
    let list = front(&mut space, u64::from(body.u16()?))?;
    let answer = list::fill(body.rest(), list);
    say!(rt; "{}{}", Counted("HOSTS ", answer), Numbers(list));
    Ok(())
}
