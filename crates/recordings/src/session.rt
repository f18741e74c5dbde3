// What the library keeps by value between chunks of a recording. The lent file, ledgers and held bytes belong to it.
ghost use Rattle.std.specs.Prelude.{◌≡◌};
ghost use Rattle.recordings.specs.Kept.{first_session};

use receiver::receive::Receiver;
use receiver::start;

// What the records so far have led to.
#[derive(Clone, Copy)]
pub struct Progress {
    pub receiver: Receiver,
    // The number of the next record, the first being 0.
    pub number: u64,
    // Whether a start has come.
    // Stays: a flag, since a receiver is there before the first start too (`first_session`).
    pub started: bool,
}

#[derive(Clone, Copy)]
pub struct Session {
    pub progress: Progress,
    // How many of the held bytes are in use: those of a record that is not whole.
    // Stays: these bytes are lent by the host, so how many are in use is kept here.
    pub held: usize,
    // Whether a record was malformed; nothing after it is read.
    pub stopped: bool,
}

// Nothing has been read. What is lent with it may hold anything.
pub fn begin() -> Session
    ensures { result ≡ first_session }
{
    let started = start::start(0, &mut [], &mut []);
    Session {
        progress: Progress {
            receiver: started.receiver,
            number: 0,
            started: false,
        },
        held: 0,
        stopped: false,
    }
}
