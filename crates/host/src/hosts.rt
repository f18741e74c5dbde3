// Host-ports.
ghost use Rattle.std.specs.Prelude.{◌≡◌};
ghost use Rattle.hostlists.specs.HostList.{fill_of, fill_after};
ghost use Rattle.hostports.specs.HostPort.{host_port_at};
ghost use Rattle.host.specs.Hosts.{host_port_count_of, host_port_at_of};

use hostlists::list;
use hostports::host_port;

// Stays: a C struct holds no enum with values, so a refusal, a kind and a code are numbers, 0 for none.
#[repr(C)]
#[derive(Clone, Copy, Default)]
pub struct HostPortCount {
    // How many host-ports the text has.
    pub count: usize,
    pub refused: u8,
}

// Stays: a C struct holds no Option, so `found` is 1 or 0.
#[repr(C)]
#[derive(Clone, Copy, Default)]
pub struct HostPortAt {
    // address * 65,536 + port.
    pub value: u64,
    // The place after it.
    pub next: usize,
    // 1 where a host-port is at the place, else 0.
    pub found: u8,
}

#[unsafe(no_mangle)]
pub extern "C" fn cob_hosts_read(text: &[u8], list: &mut [u64]) -> HostPortCount
    ensures { (result ≡ host_port_count_of (fill_of text.now list.old)) × (list.new ≡ fill_after text.now list.old) }
{
    match list::fill(text, list) {
        Ok(count) => HostPortCount { count, refused: 0 },
        Err(refusal) => HostPortCount {
            count: 0,
            refused: u8::from(refusal),
        },
    }
}

// The host-port at a place of the text.
#[unsafe(no_mangle)]
pub extern "C" fn cob_host_at(text: &[u8], at: usize) -> HostPortAt
    ensures { result ≡ host_port_at_of (host_port_at text.now at) }
{
    match host_port::read_at(text, at) {
        Some(parsed) => HostPortAt {
            value: parsed.value,
            next: parsed.next,
            found: 1,
        },
        None => HostPortAt::default(),
    }
}
