// What is kept from one request to the next.
use crate::part::Part;
use console::state;
use console::state::Console;
use receiver::receive::Receiver;
use receiver::start;
use sender::begin;
use sender::state::Sender;

// By value: the receiver, the sender and the console.
#[derive(Clone, Copy)]
pub struct Session {
    pub receiver: Receiver,
    pub sender: Sender,
    pub console: Console,
}

// What a start with no bytes and no entries leaves, a beginning that is refused, and a new console.
pub fn first() -> Session {
    Session {
        receiver: start::start(0, &mut [], &mut []).receiver,
        sender: begin::begin(0, 0, 0).sender,
        console: state::beginning(),
    }
}

// The receiver, and what its calls are lent.
#[derive(Drop)]
pub struct Receiving<'a> {
    pub receiver: &'a mut Receiver,
    pub file: Part<'a, u8>,
    pub claimed: Part<'a, u64>,
    pub doubtful: Part<'a, u64>,
}

// The sender, and the file that it is lent.
#[derive(Drop)]
pub struct Sending<'a> {
    pub sender: &'a mut Sender,
    pub source: Part<'a, u8>,
}

// The session, with all that is lent.
#[derive(Drop)]
pub struct Desk<'a> {
    pub receiving: Receiving<'a>,
    pub sending: Sending<'a>,
    pub console: &'a mut Console,
}

impl<'a> Desk<'a> {
    pub fn new(
        session: &'a mut Session,
        file: &'a mut [u8],
        claimed: &'a mut [u64],
        doubtful: &'a mut [u64],
        source: &'a mut [u8],
    ) -> Desk<'a> {
        Desk {
            receiving: Receiving {
                receiver: &mut session.receiver,
                file: Part::new(file),
                claimed: Part::new(claimed),
                doubtful: Part::new(doubtful),
            },
            sending: Sending {
                sender: &mut session.sender,
                source: Part::new(source),
            },
            console: &mut session.console,
        }
    }
}
