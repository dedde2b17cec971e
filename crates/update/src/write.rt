// A write of one block, while power lasts.
ghost use Rattle.std.specs.Prelude.{◌≡◌, ◌+◌, ◌-◌, ◌*◌, ◌<◌, ◌≤◌, ◌↔◌, length, if◌then◌else◌, nat_lt, IsOk, OnOk, OnErr};
ghost use Rattle.fsck.specs.Blocks.{size};
ghost use Rattle.update.specs.Writes.{after_write, entry_write};

use fsck::sound_disk::SoundDisk;
use layout::disk::Disk;

// A write puts these bytes into the block of this number, all of them or none.
#[derive(Debug, Clone, Copy, PartialEq, Eq)]
pub struct Write {
    pub to: usize,
    pub bytes: [u8; Disk::BLOCK],
}

// The block of a write isn't on the disk.
#[derive(Debug, Clone, Copy, PartialEq, Eq)]
pub struct OffDisk;

// Fills a part of the disk with these bytes.
fn fill(part: &mut [u8], bytes: &[u8; Disk::BLOCK])
    requires { length part.old ≡ 64 }
    ensures { part.new ≡ bytes.now }
{
    part.copy_from_slice(bytes);
}

// Makes the write: its bytes are in its block, all of them, and nothing else is changed.
pub(crate) fn write_block(disk: &mut [u8], write: &Write)
    requires { 64 * write.now.to + 64 ≤ length disk.old }
    ensures { disk.new ≡ after_write disk.old write.now }
{
    let at = write.to * Disk::BLOCK;
    // A part from the middle of the disk, lent on to be written.
    fill(&mut disk[at..at + Disk::BLOCK], &write.bytes);
}

impl Write {
    // Makes the write on a disk in memory. Nothing is changed where its block isn't on the disk.
    #[tactic(auto, unfolding(fsck::specs::Blocks::size))]
    pub fn make(&self, disk: &mut [u8]) -> Result<(), OffDisk>
        ensures made { IsOk result ↔ (self.now.to < size disk.old) }
        ensures disk { OnOk result (disk.new ≡ after_write disk.old self.now) }
        ensures same { OnErr result (disk.new ≡ disk.old) }
    {
        if self.to >= disk.len() / Disk::BLOCK {
            return Err(OffDisk);
        }
        write_block(disk, self);
        Ok(())
    }
}

// The same while power lasts, which then lasts for one write less. The answer is whether it lasted, and nothing more: once it has failed nothing is written.
// The rules of the project ask for power as a number that falls from write to write.
pub(crate) fn write_powered(disk: &mut [u8], write: &Write, power: &mut u64) -> bool
    requires { 64 * write.now.to + 64 ≤ length disk.old }
    ensures made { result ≡ nat_lt 0 power.old }
    ensures power { power.new ≡ power.old - 1 }
    ensures disk { disk.new ≡ (if result then after_write disk.old write.now else disk.old) }
{
    if *power == 0 {
        return false;
    }
    *power -= 1;
    write_block(disk, write);
    true
}

// The write of the block that has entry i, with these bytes in the entry's place and the other entry as it is.
pub(crate) fn entry_write(disk: SoundDisk<'_>, i: usize, entry: &[u8; Disk::ENTRY]) -> Write
    requires { i < 16 }
    ensures { result ≡ entry_write disk.entry.bytes.now i entry.now }
{
    let to = i / 2;
    let at = to * Disk::BLOCK;
    let mut bytes = [0; Disk::BLOCK];
    bytes.copy_from_slice(&disk.bytes()[at..at + Disk::BLOCK]);
    let half = i % 2 * Disk::ENTRY;
    bytes[half..half + Disk::ENTRY].copy_from_slice(entry);
    Write { to, bytes }
}
