// Whether a disk is sound, and the first entry at which it isn't.
ghost use Rattle.std.specs.Prelude.{◌≡◌, ℕ, suc, ◌<◌, true, false, ◌||◌, ◌==◌, map, MatchOption, IsTrue, ◌↔◌};
ghost use Rattle.std.specs.Option.{option_map};
ghost use Rattle.layout.specs.Entries.{decoded};
ghost use Rattle.layout.specs.Files.{has_entries, has_entry, held, find, entry_at, entries};
ghost use Rattle.fsck.specs.Sets.{member};
ghost use Rattle.fsck.specs.Blocks.{blocks_to, has, size};
ghost use Rattle.fsck.specs.Sound.{size_ok, block_ok, blocks_ok, entry_ok, sound, first_fault};
ghost use Rattle.fsck.specs.Faults.{place, fault_of_place};
ghost use Rattle.fsck.specs.Rules.{Sound, Judged, TwinsFound};

use crate::block_set::BlockSet;
use crate::fault::Fault;
use layout::disk::Disk;
use layout::entry::Entry;

// Whether the bytes are whole blocks, as few and as many as a disk may have.
fn has_size(disk: &[u8]) -> bool
    ensures { result ≡ size_ok disk.now }
{
    let blocks = disk.len() / Disk::BLOCK;
    disk.len() % Disk::BLOCK == 0 && (Disk::LEAST..=Disk::MOST).contains(&blocks)
}

// Whether the block is one for files, on the disk, and not taken.
fn is_fresh(b: u8, size: usize, taken: &BlockSet) -> bool
    ensures { result ≡ block_ok size (member taken.now) b }
{
    (Disk::ENTRY_BLOCKS..size).contains(&usize::from(b)) && !taken.contains(b)
}

// Puts the blocks into the set, up to one that is not fresh, if there is one. Says whether all were: a `bool`, since nothing more is to be known of one that wasn't.
fn take_blocks(blocks: &[u8], size: usize, taken: &mut BlockSet) -> bool
    ensures value { result ≡ blocks_ok size (member taken.old) blocks.now }
    ensures taken { result ≡ true → (k : ℕ) → member taken.new k ≡ (has blocks.now k || member taken.old k) }
{
    for b in blocks {
        if !is_fresh(*b, size, taken) {
            return false;
        }
        taken.insert(*b);
    }
    true
}

// Whether entry i is the first in use with its name.
fn is_first(disk: Disk<'_>, entry: &Entry, i: usize) -> bool
    requires { has_entries (held disk) ≡ true }
    ensures { i < 16 → result ≡ (find (held disk.entry) entry.now.name.bytes == i) }
{
    disk.find(&entry.name) == Some(i)
}

// Whether entry i of the disk has no fault against those before it, whose blocks are taken. If it has none, its own blocks are taken too. A `bool`, as of `take_blocks`.
fn judge_entry(disk: &[u8], i: usize, entry: &Entry, taken: &mut BlockSet) -> bool
    requires there { has_entry disk.now i ≡ true }
    requires entry { entry.now ≡ entry_at disk.now i }
    requires taken { (k : ℕ) → member taken.old k ≡ has (blocks_to disk.now i) k }
    ensures value { result ≡ entry_ok disk.now i }
    ensures taken { result ≡ true → (k : ℕ) → member taken.new k ≡ has (blocks_to disk.now (suc i)) k }
{
    // A flag of the disk, since an entry has only that it is 1 or not.
    if disk[i * Disk::ENTRY] > 1 {
        return false;
    }
    if !entry.used {
        return true;
    }
    if usize::from(entry.len) > Disk::LONGEST {
        return false;
    }
    if !is_first(Disk::new(disk), entry, i) {
        return false;
    }
    take_blocks(entry.file_blocks(), disk.len() / Disk::BLOCK, taken)
}

// The parts that spell the entries, where the disk has the size of one.
fn table_of(disk: &[u8]) -> Option<&[[u8; Disk::ENTRY]; Disk::ENTRIES]>
    ensures { MatchOption result (size_ok disk.now ≡ false) (λ table. (size_ok disk.now ≡ true) × (map decoded table.now ≡ entries disk.now)) }
{
    if has_size(disk) {
        Disk::new(disk).table()
    } else {
        None
    }
}

// Nothing for a sound disk; else its size, where that is wrong, or the first entry at which it isn't sound, judged against those before it.
pub fn first_fault(disk: &[u8]) -> Option<Fault>
    ensures value { result ≡ option_map fault_of_place (first_fault disk.now) }
    ensures places { option_map place result ≡ first_fault disk.now }
    ensures judged { Judged disk.now (option_map place result) }
    ensures agrees { IsTrue (sound disk.now) ↔ Sound disk.now }
    ensures twins { TwinsFound disk.now }
{
    let Some(table) = table_of(disk) else {
        return Some(Fault::Size);
    };
    let mut taken = BlockSet::new();
    for (i, part) in table.iter().enumerate() {
        if !judge_entry(disk, i, &Entry::decode(part), &mut taken) {
            return Some(Fault::Entry(i));
        }
    }
    None
}
