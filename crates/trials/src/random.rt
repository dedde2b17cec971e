// Numbers that look random, the same ones for the same seed.
ghost use Rattle.std.specs.Prelude.{◌≡◌, ◌<◌, length};

use std::alloc::{AllocError, Global};

#[derive(Drop)]
pub struct Random {
    state: u64,
}

impl Random {
    pub fn new(seed: u64) -> Random {
        Random { state: seed }
    }

    // A step of the generator SplitMix64.
    pub fn next(&mut self) -> u64 {
        self.state = self.state.wrapping_add(0x9e37_79b9_7f4a_7c15);
        let a = (self.state ^ (self.state >> 30)).wrapping_mul(0xbf58_476d_1ce4_e5b9);
        let b = (a ^ (a >> 27)).wrapping_mul(0x94d0_49bb_1331_11eb);
        b ^ (b >> 31)
    }

    // A number below n, or 0 where there is none.
    pub fn below(&mut self, n: usize) -> usize
        ensures { 0 < n → result < n }
    {
        let any = self.next() as usize;
        if n == 0 { 0 } else { any % n }
    }

    // True once in n times.
    pub fn once_in(&mut self, n: usize) -> bool {
        self.below(n) == 0
    }

    pub fn byte(&mut self) -> u8 {
        (self.next() & 0xff) as u8
    }

    // Fills the bytes.
    pub fn fill(&mut self, bytes: &mut [u8]) {
        for byte in bytes {
            *byte = self.byte();
        }
    }

    // So many bytes.
    pub fn bytes(&mut self, heap: Global, len: usize) -> Result<Vec<u8>, AllocError> {
        let mut bytes = Vec::new(heap);
        bytes.resize(len, 0)?;
        self.fill(bytes.as_mut_slice());
        Ok(bytes)
    }
}
