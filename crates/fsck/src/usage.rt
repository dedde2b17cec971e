// The blocks that the files of a disk take.
ghost use Rattle.std.specs.Prelude.{◌≡◌, ℕ, ◌&&◌, ◌||◌};
ghost use Rattle.layout.specs.Files.{has_entries};
ghost use Rattle.fsck.specs.Sets.{member, counted};
ghost use Rattle.fsck.specs.Blocks.{has, in_use};
ghost use Rattle.fsck.specs.Usage.{Counts};

use crate::block_set::BlockSet;
use layout::disk::Disk;
use layout::entry::Entry;

// Puts each of the blocks into the set.
fn insert_all(blocks: &[u8], set: &mut BlockSet)
    ensures { (k : ℕ) → member set.new k ≡ (has blocks.now k || member set.old k) }
{
    for b in blocks {
        set.insert(*b);
    }
}

// The blocks that entries in use have.
pub fn blocks_in_use(disk: &[u8]) -> BlockSet
    ensures members { (b : ℕ) → member result b ≡ (has_entries disk.now && in_use disk.now b) }
    ensures counts { Counts disk.now (counted (member result) 0 256) }
{
    let mut set = BlockSet::new();
    let Some(table) = Disk::new(disk).table() else {
        return set;
    };
    for part in table {
        let entry = Entry::decode(part);
        if entry.used {
            insert_all(entry.file_blocks(), &mut set);
        }
    }
    set
}
