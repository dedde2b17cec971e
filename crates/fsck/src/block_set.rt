// A set of blocks: a bit for each of 256 numbers, in four words.
ghost use Rattle.std.specs.Prelude.{◌≡◌, ℕ, false, ◌||◌, ◌==◌};
ghost use Rattle.fsck.specs.Sets.{member, counted};

#[derive(Clone, Copy, Debug, Default, PartialEq, Eq)]
pub struct BlockSet {
    words: [u64; BlockSet::WORDS],
}

impl BlockSet {
    const WORDS: usize = 4;

    const WORD_BITS: usize = u64::BITS as usize;

    // The set that has no block.
    pub fn new() -> BlockSet
        ensures { (b : ℕ) → member result b ≡ false }
    {
        BlockSet {
            words: [0; BlockSet::WORDS],
        }
    }

    // Puts the block into the set.
    pub fn insert(&mut self, b: u8)
        ensures { (k : ℕ) → member self.new k ≡ (k == b || member self.old k) }
    {
        let b = usize::from(b);
        self.words[b / BlockSet::WORD_BITS] |= 1 << (b % BlockSet::WORD_BITS);
    }

    pub fn contains(&self, b: u8) -> bool
        ensures { result ≡ member self.now b }
    {
        let b = usize::from(b);
        (self.words[b / BlockSet::WORD_BITS] >> (b % BlockSet::WORD_BITS)) & 1 == 1
    }

    // How many blocks the set has: the ones of its words.
    pub fn count(&self) -> usize
        ensures { result ≡ counted (member self.now) 0 256 }
    {
        let mut n = 0;
        for word in self.words {
            n += word.count_ones() as usize;
        }
        n
    }
}
