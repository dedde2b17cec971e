// A list of a file's block numbers, which needs no heap.
ghost use Rattle.std.specs.Prelude.{◌≤◌};

use crate::padded::padded;
use layout::disk::Disk;

// The numbers of a file's blocks, at most as many as an entry has room for.
#[derive(Debug, Clone, Copy)]
pub(crate) struct BlockList {
    numbers: [u8; Disk::FILE_BLOCKS],
    len: usize,
    ghost few: { len ≤ 16 },
}

impl BlockList {
    ghost use Rattle.std.specs.Prelude.{◌≡◌, ◌<◌, [], ◌∷◌, ◌++◌, length};
    ghost use Rattle.update.specs.Listed.{listed};
    ghost use Rattle.update.specs.Putting.{padded};

    // The list that has no block.
    pub(crate) fn new() -> BlockList
        ensures { listed result ≡ [] }
    {
        BlockList {
            numbers: [0; Disk::FILE_BLOCKS],
            len: 0,
        }
    }

    // Puts the block behind the others.
    pub(crate) fn push(&mut self, block: u8)
        requires { length (listed self.old) < 16 }
        ensures { listed self.new ≡ listed self.old ++ block ∷ [] }
    {
        self.numbers[self.len] = block;
        self.len += 1;
    }

    pub(crate) fn as_slice(&self) -> &[u8]
        ensures { result.now ≡ listed self.now }
    {
        &self.numbers[..self.len]
    }

    // The numbers as an entry has them, with zeros behind them.
    pub(crate) fn in_entry(&self) -> [u8; Disk::FILE_BLOCKS]
        ensures { result ≡ padded 16 (listed self.now) }
    {
        padded(self.as_slice())
    }
}
