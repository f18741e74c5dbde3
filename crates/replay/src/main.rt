// Replays a recording (document 02, Item 4): chunks of it from standard input, the printed lines to standard output.
#![tactic(auto)]

ghost use Rattle.std.specs.Prelude.{◌≡◌, length};

use answers::refusal::Refusal;
use recordings::session::Session;
use recordings::{feed, finish, session};
use std::io::Read;

// More reads than any night has; a proved loop has to end.
const READS: u64 = u64::MAX;

// The session, and what its calls are lent.
#[derive(Drop)]
struct Replay<'a> {
    session: Session,
    held: &'a mut [u8; 16391],
    file: &'a mut [u8; 32768],
    claimed: &'a mut [u64; 512],
    doubtful: &'a mut [u64; 512],
    out: &'a mut [u8],
}

// Writes the lines at the front of the bytes; nothing is answered where not all of them could be written.
fn print(rt: &impl Print, answer: Result<usize, Refusal>, out: &[u8]) -> Option<()> {
    let lines = out.get(..answer.ok()?)?;
    rt.write_all(lines).ok()
}

impl Replay<'_> {
    // Feeds the library what each read puts at the front of the chunk, until the input ends, a read fails, a record is malformed or a line cannot
    // be written.
    fn run(&mut self, rt: &impl Print, input: &mut impl Read, chunk: &mut [u8]) -> Option<()> {
        for _ in 0..READS {
            let n = input.read(chunk).unwrap_or(0);
            if n == 0 {
                break;
            }
            let fed = feed::feed(
                self.session,
                &chunk[..n],
                self.held,
                self.file,
                self.claimed,
                self.doubtful,
                self.out,
            );
            self.session = fed.session;
            print(rt, fed.answer, self.out)?;
            if self.session.stopped {
                break;
            }
        }
        print(rt, finish::finish(self.session, self.out), self.out)
    }
}

// As much as is read at once.
const CHUNK: usize = 65536;

// As much as is lent for such a chunk: 192 bytes, and 16 for each of its own.
const LINES: usize = 1048768;

// A long array, made by a function of its own, since the check of a larger function that makes one runs out of stack.
fn space<const N: usize>() -> [u8; N]
    ensures { N ≡ length result }
{
    [0; N]
}

fn main(rt: HostRuntime) {
    let mut input = rt.stdin();
    let mut chunk = space::<CHUNK>();
    let mut replay = Replay {
        session: session::begin(),
        held: &mut [0; 16391],
        file: &mut [0; 32768],
        claimed: &mut [0; 512],
        doubtful: &mut [0; 512],
        out: &mut space::<LINES>(),
    };
    let _ = replay.run(&rt, &mut input, &mut chunk);
}
