// The channel counts and block sizes that a sender takes.
ghost use Rattle.std.specs.Prelude.{◌≡◌};
ghost use Rattle.sender.specs.Blocks.{out_of_range};

use crate::state::{CHANNELS, SIZE_LIMIT};

// Whether the channel count is outside 1 to 64, or the block size outside 1 to 65,536.
#[tactic(auto, unfolding(crate::specs::Blocks::out_of_range))]
pub fn out_of_range(count: u64, size: u64) -> bool
    ensures { result ≡ out_of_range count size }
{
    count == 0 || (CHANNELS as u64) < count || size == 0 || SIZE_LIMIT < size
}
