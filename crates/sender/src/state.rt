// The sender, by value. Plain numbers, so that a host can hold it; what they mean is said in specs/.

// The most channels, and the most bytes of a block.
pub const CHANNELS: usize = 64;

pub const SIZE_LIMIT: u64 = 65536;

// Stays: a C host holds it by value, so its numbers stand in an array of fixed length.
#[repr(C)]
#[derive(Clone, Copy)]
pub struct Sender {
    // The file's length, the number of channels and the block size that it was begun with.
    pub len: u64,
    pub count: u64,
    pub size: u64,
    // How many blocks each channel has been given, the ending counted as one.
    pub given: [u64; 64],
}
