// Makes the call that each request on standard input names, and prints a line for each, until the input ends or a request is malformed.
#![tactic(auto)]

mod block_headers;
mod body;
mod calls;
mod consoles;
mod control;
mod conversions;
mod frame;
mod kinds;
mod ledgers;
mod lent;
mod part;
mod print;
mod sending;
mod session;
mod space;

use print::say;
use session::Desk;
use std::io::Read;

// More than any input has; a proved loop has to end.
const REQUESTS: u64 = 1099511627776;

fn run(rt: &impl Print, input: &mut impl Read, desk: &mut Desk) {
    let mut space = space::bytes::<{ frame::SPACE }>(0);
    for number in 0..REQUESTS {
        let served = match frame::read(input, &mut space) {
            Ok(Some(request)) => kinds::serve(rt, desk, request),
            Ok(None) => return,
            Err(malformed) => Err(malformed),
        };
        if served.is_err() {
            say!(rt; "RECORD {number}");
            return;
        }
    }
}

// As much as the longest body.
const SOURCE: usize = 70000;

fn main(rt: HostRuntime) {
    let mut input = rt.stdin();
    let mut file = space::bytes::<65536>(0);
    let mut claimed = space::entries::<8200>(0);
    let mut doubtful = space::entries::<8200>(0);
    let mut source = space::bytes::<SOURCE>(0);
    let mut session = session::first();
    let mut desk = Desk::new(
        &mut session,
        &mut file,
        &mut claimed,
        &mut doubtful,
        &mut source,
    );
    run(&rt, &mut input, &mut desk);
}
