// Where a new file goes: the blocks for its bytes, and the place of its entry.
ghost use Rattle.std.specs.Prelude.{◌≡◌, ◌<◌, ◌≤◌, not, length, take, if◌then◌else◌, Some, None, MatchOption, position, nat_lt};
ghost use Rattle.layout.specs.Files.{entries};
ghost use Rattle.fsck.specs.Blocks.{free};
ghost use Rattle.update.specs.Listed.{listed};
ghost use Rattle.update.specs.Putting.{place_for};

use crate::block_list::BlockList;
use fsck::sound_disk::SoundDisk;
use fsck::usage::blocks_in_use;
use layout::disk::Disk;
use layout::entry::Entry;
use layout::name::Name;

// The lowest free blocks, as many as are needed; none where fewer are free.
pub(crate) fn choose_blocks(disk: SoundDisk<'_>, needed: usize) -> Option<BlockList>
    requires { needed ≤ 16 }
    ensures { MatchOption result (length (free disk.entry.bytes.now) < needed) (λ chosen. (needed ≤ length (free disk.entry.bytes.now)) × (listed chosen ≡ take needed (free disk.entry.bytes.now))) }
{
    let used = blocks_in_use(disk.bytes());
    let size = disk.blocks() as u8;
    let free = (Disk::ENTRY_BLOCKS as u8..size).filter(|b| !used.contains(*b));
    let mut chosen = BlockList::new();
    for b in free.take(needed) {
        chosen.push(b);
    }
    if chosen.as_slice().len() < needed {
        return None;
    }
    Some(chosen)
}

// The place of the first entry that is not in use; none where all are.
fn first_unused(disk: SoundDisk<'_>) -> Option<usize>
    ensures { result ≡ position (λ e. not e.used) (entries disk.entry.bytes.now) }
{
    disk.table()
        .iter()
        .map(|part| Entry::decode(part))
        .position(|entry| !entry.used)
}

// The place of the entry for a file of this name: the one that has it, or else the first that is not in use; none where all are.
pub(crate) fn choose_entry(disk: SoundDisk<'_>, name: &Name) -> Option<usize>
    ensures { result ≡ (if nat_lt (place_for disk.entry.bytes.now name.now.bytes) 16 then Some (place_for disk.entry.bytes.now name.now.bytes) else None) }
{
    // No `or_else`: what its closure gives isn't known in the proof.
    if let Some(place) = disk.view().find(name) {
        return Some(place);
    }
    first_unused(disk)
}
