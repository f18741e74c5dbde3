// Bytes and entries that calls are lent: the front of what there is.
use crate::body::Malformed;

// What lent bytes and entries hold before a call, so that it shows where they are unchanged.
pub const BYTE: u8 = 238;

pub const ENTRY: u64 = 7;

// So many of them, from the first on.
pub fn front<T>(all: &mut [T], count: u64) -> Result<&mut [T], Malformed> {
    all.get_mut(..count as usize).ok_or(Malformed)
}

// What is lent from one request to the next.
#[derive(Drop)]
pub struct Part<'a, T> {
    all: &'a mut [T],
    lent: usize,
}

impl<'a, T: Copy> Part<'a, T> {
    pub fn new(all: &'a mut [T]) -> Part<'a, T> {
        Part { all, lent: 0 }
    }

    pub fn lent(&self) -> &[T] {
        &self.all[..self.lent.min(self.all.len())]
    }

    pub fn lent_mut(&mut self) -> &mut [T] {
        let count = self.lent.min(self.all.len());
        &mut self.all[..count]
    }

    // So many are lent from now on; each that was not lent before is `new`.
    // Stays: a loop, since `fill` asks of a type parameter that its clone cannot fail, which `Copy` does not say.
    pub fn lend(&mut self, count: u64, new: T) -> Result<(), Malformed> {
        if (self.all.len() as u64) < count {
            return Err(Malformed);
        }
        if let Some(rest) = self.all.get_mut(self.lent..) {
            for item in rest {
                *item = new;
            }
        }
        self.lent = count as usize;
        Ok(())
    }

    // So many are lent from now on, each of them `value`.
    pub fn start(&mut self, count: u64, value: T) -> Result<(), Malformed> {
        if (self.all.len() as u64) < count {
            return Err(Malformed);
        }
        self.lent = count as usize;
        for item in self.lent_mut() {
            *item = value;
        }
        Ok(())
    }

    // As many as there is room for.
    pub fn room(&self) -> u64 {
        self.all.len() as u64
    }

    // These are lent from now on, or as many of them as there is room for.
    pub fn store(&mut self, items: &[T]) {
        let count = items.len().min(self.all.len());
        self.all[..count].copy_from_slice(&items[..count]);
        self.lent = count;
    }
}
