// Which call each kind of request makes.
use crate::body::Malformed;
use crate::frame::Request;
use crate::ledgers::Loaded;
use crate::session::Desk;
use crate::{block_headers, consoles, control, conversions, ledgers};
use rangelists::ranges;
use savedledgers::saved;

pub fn serve(rt: &impl Print, desk: &mut Desk, request: Request) -> Result<(), Malformed> {
    let body = request.body;
    match request.kind {
        16 => desk.receiving.start_alike(rt, body),
        17 => desk.receiving.receive(rt, body),
        18 => desk.receiving.fill_file(rt, body),
        19 => desk.receiving.poke_claimed(rt, body),
        20 => desk.receiving.lend(rt, body),
        21 => desk.receiving.show_file(rt, body),
        22 => desk.receiving.show_claimed(rt, body),
        23 => desk.receiving.start_apart(rt, body),
        24 => desk.receiving.poke_doubtful(rt, body),
        25 => desk.receiving.lend_doubtful(rt, body),
        26 => desk.receiving.show_doubtful(rt, body),
        32 => block_headers::read(rt, body),
        33 => block_headers::write(rt, body),
        34 => control::command(rt, body),
        35 => control::reply(rt, body),
        36 => control::host_ports(rt, body),
        37 => ledgers::read(
            rt,
            body,
            |text, ledger| ranges::read(text, ledger).map(|()| Loaded::Ranges),
        ),
        38 => ledgers::write(rt, body, "TEXT ", ranges::write),
        39 => ledgers::write(rt, body, "SAVED ", saved::write),
        40 => ledgers::read(
            rt,
            body,
            |record, ledger| saved::read(record, ledger).map(|()| Loaded::Saved),
        ),
        41 => ledgers::read(
            rt,
            body,
            |record, ledger| saved::read_sized(record, ledger).map(Loaded::Sized),
        ),
        42 => conversions::to_two(rt, body),
        43 => conversions::to_one(rt, body),
        48 => desk.sending.begin(rt, body),
        49 => desk.sending.next(rt, body),
        50 => desk.sending.lend(rt, body),
        51 => desk.sending.harm(rt, body),
        56 => consoles::begin(rt, desk.console, body),
        57 => consoles::line(rt, desk.console, body),
        58 => consoles::end(rt, desk.console, body),
        _ => Err(Malformed),
    }
}
