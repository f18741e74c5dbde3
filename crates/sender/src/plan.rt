// Which block comes next on a channel, and where its bytes are in the file.
ghost use Rattle.std.specs.Prelude.{◌≡◌, cond, List, ℕ, ◌+◌, ◌/◌, ◌%◌, ◌^◌, ◌≤◌, ◌<◌, ltb, length, take, drop};
ghost use Rattle.eblock.specs.Header.{header_bytes, refusal_of, second_field};
ghost use Rattle.sender.specs.Blocks.{block_count, block_start, block_length, block_on};
ghost use Rattle.sender.specs.Sender.{most_on, all_at_most};

use eblock::descriptor::{END_OF_DATA, EODC};

// The ending of channel 0 announces the count.
const COUNTED_ENDING: u8 = EODC + END_OF_DATA;

// A block's header: its descriptor, its length, and the offset or, in the ending of channel 0, the count. Its bytes are those of the file from the
// offset on.
#[derive(Clone, Copy, Debug, PartialEq, Eq)]
pub struct Outline {
    pub descriptor: u8,
    pub length: u64,
    pub third: u64,
}

// How a file of len bytes is sent: on so many channels, in blocks of so many bytes.
#[derive(Clone, Copy, Debug, PartialEq, Eq)]
pub struct Plan {
    pub len: u64,
    pub count: u64,
    pub size: u64,
    ghost fits: { (len < 2 ^ 63) × (0 < count) × (count ≤ 64) × (0 < size) },
}

// How the blocks of a file are dealt out: each channel has so many, and those below `more` one besides.
#[derive(Clone, Copy, Debug, PartialEq, Eq)]
struct Share {
    each: u64,
    more: u64,
    count: u64,
    ghost few: { each < 2 ^ 63 },
}

impl Share {
    // The most that channel c can be given, its ending counted.
    fn most_on(self, c: u64) -> u64
        ensures { result ≡ cond (ltb c self.count) (self.each + cond (ltb c self.more) 1 0 + 1) 0 }
    {
        if self.count <= c {
            0
        } else if c < self.more {
            self.each + 2
        } else {
            self.each + 1
        }
    }
}

impl Plan {
    // How many blocks with bytes the file has.
    #[tactic(auto, using(crate::proofs::BlockNumbers::rounded_up))]
    fn block_count(self) -> u64
        ensures { result ≡ block_count self.len self.size }
    {
        self.len.div_ceil(self.size)
    }

    #[tactic(auto, using(crate::proofs::BlockNumbers::share_most))]
    fn share(self) -> Share
        ensures { (result.each ≡ block_count self.len self.size / self.count) × (result.more ≡ block_count self.len self.size % self.count) × (result.count ≡ self.count) }
    {
        let blocks = self.block_count();
        Share {
            each: blocks / self.count,
            more: blocks % self.count,
            count: self.count,
        }
    }

    // The most that channel c can be given, its ending counted.
    #[tactic(auto, unfolding(crate::specs::Sender::most_on, crate::specs::Blocks::blocks_on))]
    pub fn most_on(self, c: u64) -> u64
        ensures { result ≡ most_on self.len self.count self.size c }
    {
        self.share().most_on(c)
    }

    // Whether no channel has been given more.
    pub fn all_at_most(self, given: &[u64]) -> bool
        ensures { result ≡ all_at_most (most_on self.len self.count self.size) 0 given.now }
    {
        let share = self.share();
        given
            .iter()
            .enumerate()
            .all(|(c, n)| *n <= share.most_on(c as u64))
    }

    // Block k of the file.
    #[tactic(auto, using(crate::proofs::BlockNumbers::starts_inside))]
    fn data_outline(self, k: u64) -> Outline
        requires { k < block_count self.len self.size }
        ensures { (result.descriptor ≡ 0) × (result.length ≡ block_length self.len self.size k) × (result.third ≡ block_start self.size k) × (result.third + result.length ≤ self.len) }
    {
        let third = k * self.size;
        let rest = self.len - third;
        Outline {
            descriptor: 0,
            length: rest.min(self.size),
            third,
        }
    }

    // The block that channel c is given after i others, which are not yet all.
    pub fn next_outline(self, c: u64, i: u64) -> Outline
        requires { (c < self.count) × (i < most_on self.len self.count self.size c) }
        ensures { (refusal_of result.descriptor result.third ≡ 0) × (0 < result.length → result.third + result.length ≤ self.len) × ((file : List ℕ) → length file ≡ self.len → (header_bytes result.descriptor (second_field result.descriptor result.length) result.third ≡ (block_on file self.count self.size c i).head) × (take result.length (drop result.third file) ≡ (block_on file self.count self.size c i).body)) }
    {
        let most = self.most_on(c);
        if i + 1 < most {
            self.data_outline(i * self.count + c)
        } else if c == 0 {
            Outline {
                descriptor: COUNTED_ENDING,
                length: 0,
                third: self.count,
            }
        } else {
            Outline {
                descriptor: END_OF_DATA,
                length: 0,
                third: 0,
            }
        }
    }
}
