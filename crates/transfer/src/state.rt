// The transfer, by value. Plain numbers and arrays, so that a host can hold it; what each value means is said in specs/.

// One channel.
// Stays: a C host holds it, so its state is a number.
//
//     unused --first byte--> header --17th byte--> payload --last byte--> header or, with bit 8, ended
//
// A header without a payload, of length 0 or a count of end markers, leads to the next header or, with bit 8, to the end. After a fault the
// channel is in a header of which nothing is held; 19 leaves it unused.
#[repr(C)]
#[derive(Clone, Copy)]
pub struct Channel {
    // 0 unused, 1 in a header, 2 in a payload, 3 in a payload after which the channel ends, 4 ended.
    pub state: u8,
    // How many bytes of a header are held; 0 unless in a header.
    pub held: u8,
    // The next place of the payload and its bytes left; 0 unless in a payload.
    pub next: u64,
    pub left: u64,
}

// Stays: a C host holds it by value, so its arrays have fixed lengths, and its fault is a number.
#[repr(C)]
#[derive(Clone, Copy)]
pub struct Transfer {
    // The file's length, F.
    pub len: u64,
    // The pairs of each ledger, R.
    pub pairs: u64,
    // The number of end markers that the sender announced, 0 while it is unknown.
    pub count: u64,
    // The fault's number, 0 where there is none, and the channel that it came on: the screen line's "BROKEN fault on channel".
    pub fault: u64,
    pub on: u64,
    // The held header bytes, 16 for each channel.
    pub heads: [u8; 1024],
    pub channels: [Channel; 64],
}
