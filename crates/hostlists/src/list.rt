// A list of host-ports, stored in a list that is lent.
ghost use Rattle.std.specs.Prelude.{◌≡◌, ◌≤◌, length};
ghost use Rattle.answers.specs.Refusal.{numbered};
ghost use Rattle.hostlists.specs.HostList.{host_limit, StoreResult, fill_of, fill_after};

use answers::refusal::Refusal;
use hostports::host_port;
use octets::entries;

// The most host-ports of a list, and the fewest entries that may be lent.
pub const HOST_LIMIT: usize = 64;

const SPACE: u8 = b' ';

// Reads the text from its start, storing each host-port as it comes.
fn store(text: &[u8], list: &mut [u64]) -> Result<usize, Refusal>
    requires { host_limit ≤ length list.old }
    ensures { StoreResult text.now (numbered result) list.new }
{
    let mut at = 0;
    for n in 0..HOST_LIMIT {
        let found = host_port::read_at(text, at).ok_or(Refusal::MalformedHostPort)?;
        list[n] = found.value;
        if found.next == text.len() {
            return Ok(n + 1);
        }
        if text[found.next] != SPACE {
            return Err(Refusal::MalformedHostPort);
        }
        at = found.next + 1;
    }
    Err(if at == text.len() {
        Refusal::MalformedHostPort
    } else {
        Refusal::TooManyHostPorts
    })
}

// Fills the lent list with the text's host-ports. Every entry that holds none is zero afterwards, and where the text is refused all are.
pub fn fill(text: &[u8], list: &mut [u64]) -> Result<usize, Refusal>
    ensures { (numbered result ≡ fill_of text.now list.old) × (list.new ≡ fill_after text.now list.old) }
{
    if list.len() < HOST_LIMIT {
        return Err(Refusal::HostListTooShort);
    }
    let answer = store(text, list);
    let stored = answer.unwrap_or(0);
    entries::clear(&mut list[stored..]);
    answer
}
