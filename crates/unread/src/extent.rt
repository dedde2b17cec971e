// How much of an entry and of a block is read: in both the first bytes are, and the rest aren't.
ghost use Rattle.std.specs.Prelude.{◌≡◌, ℕ, ◌<◌, ◌≤◌, ◌==◌, length, nat_le};
ghost use Rattle.layout.specs.Entries.{blocks_of};
ghost use Rattle.std.specs.List.{position};
ghost use Rattle.unread.specs.Unread.{read_of_entry, read_by_file, read_of_block, unread};

use fsck::sound_disk::SoundDisk;
use layout::disk::Disk;
use layout::entry::Entry;
use std::ops::Range;

// How many bytes of the entry are read.
#[tactic(auto, using(crate::proofs::Extents::read_of_used, crate::proofs::Extents::read_of_unused), unfolding(layout::specs::Entries::needs))]
fn read_of_entry(entry: &Entry) -> usize
    ensures { result ≡ read_of_entry entry.now }
{
    if !entry.used {
        // The flag.
        return 1;
    }
    Entry::BLOCKS_AT + Disk::blocks_needed(usize::from(entry.len))
}

// The first place in the entry's file that has block b.
fn place_in_file(b: u8, entry: &Entry) -> Option<usize>
    ensures { result ≡ position (λ x. x == b) (blocks_of entry.now) }
{
    entry.file_blocks().iter().position(|x| *x == b)
}

// How many bytes of block b are read for the entry's file: those that its first place in the file has, since no later one has more.
fn read_by_file(b: u8, entry: &Entry) -> usize
    ensures { result ≡ read_by_file b (blocks_of entry.now) entry.now.len }
{
    match place_in_file(b, entry) {
        Some(k) => usize::from(entry.len)
            .saturating_sub(k * Disk::BLOCK)
            .min(Disk::BLOCK),
        None => 0,
    }
}

// How many bytes of block b are read for any file.
fn read_of_block(disk: SoundDisk<'_>, b: u8) -> usize
    ensures { result ≡ read_of_block disk.entry.bytes.now b 16 }
{
    disk.table()
        .iter()
        .map(|part| Entry::decode(part))
        .filter(|entry| entry.used)
        .map(|entry| read_by_file(b, &entry))
        .max()
        .unwrap_or(0)
}

// Of the entry or the block that has the place, the bytes that aren't read: the last of it, or none.
pub(crate) fn unread_rest(disk: SoundDisk<'_>, place: usize) -> Range<usize>
    requires { place < length disk.bytes.now }
    ensures behind { (place < result.end) × (result.start ≤ result.end) × (result.end ≤ length disk.entry.bytes.now) }
    ensures unread { (k : ℕ) → place ≤ k → k < result.end → unread disk.entry.bytes.now k ≡ nat_le result.start k }
{
    let i = place / Disk::ENTRY;
    if i < Disk::ENTRIES {
        let entry = Entry::decode(&disk.table()[i]);
        let from = i * Disk::ENTRY;
        return from + read_of_entry(&entry)..from + Disk::ENTRY;
    }
    let b = place / Disk::BLOCK;
    let from = b * Disk::BLOCK;
    from + read_of_block(disk, b as u8)..from + Disk::BLOCK
}
