// The sizes of what a channel keeps.

// The most bytes of a header that a channel holds.
pub const HELD_LIMIT: usize = 16;
