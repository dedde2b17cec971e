// What a request writes, prepared before its first write.
ghost use Rattle.std.specs.Prelude.{◌≡◌, ◌≤◌, length, drop};
ghost use Rattle.std.specs.Option.{option_to_list};
ghost use Rattle.update.specs.Putting.{padded};
ghost use Rattle.update.specs.Requests.{take_writes};
ghost use Rattle.update.specs.Asking.{asked};
ghost use Rattle.update.specs.Plans.{plan_writes, nth_write, PutPlan, PlanSays};

use crate::admit::admit;
use crate::answer::{Done, Refusal};
use crate::block_list::BlockList;
use crate::choose::{choose_blocks, choose_entry};
use crate::padded::padded;
use crate::request::Request;
use crate::write::{Write, entry_write};
use fsck::sound_disk::SoundDisk;
use layout::disk::Disk;
use layout::entry::Entry;
use layout::name::Name;

// The blocks for a file's bytes, and the block of entries that is written last, if one is.
#[derive(Clone, Copy)]
pub struct Plan<'a> {
    content: &'a [u8],
    blocks: BlockList,
    last: Option<Write>,
}

// The bytes from `at` on that fill a block, with zeros behind their end.
fn chunk(content: &[u8], at: usize) -> [u8; Disk::BLOCK]
    ensures { result ≡ padded 64 (drop at content.now) }
{
    padded(&content[at.min(content.len())..])
}

// The write of the block that has the name's entry, with the entry no more in use and all else as it is; none where there is no such entry.
fn write_without(disk: SoundDisk<'_>, name: &Name) -> Option<Write>
    ensures { option_to_list result ≡ take_writes disk.entry.bytes.now name.now.bytes }
{
    let i = disk.view().find(name)?;
    let at = i * Disk::ENTRY;
    let mut entry = [0; Disk::ENTRY];
    entry[1..].copy_from_slice(&disk.bytes()[at + 1..at + Disk::ENTRY]);
    Some(entry_write(disk, i, &entry))
}

impl<'a> Plan<'a> {
    // What putting the file asks for, unless there is no entry for it or too few free blocks.
    fn of_put(disk: SoundDisk<'_>, name: Name, content: &'a [u8]) -> Option<Plan<'a>>
        requires { length content.now ≤ 1024 }
        ensures { PutPlan disk.entry.bytes.now name.bytes content.now result }
    {
        let needed = Disk::blocks_needed(content.len());
        let i = choose_entry(disk, &name)?;
        let blocks = choose_blocks(disk, needed)?;
        let entry = Entry {
            used: true,
            name,
            len: content.len() as u16,
            blocks: blocks.in_entry(),
            unread: [0, 0],
        };
        let last = entry_write(disk, i, &entry.encode());
        Some(Plan {
            content,
            blocks,
            last: Some(last),
        })
    }

    // What taking the file away asks for: nothing where there is none.
    fn of_away(disk: SoundDisk<'_>, name: &Name) -> Plan<'a>
        ensures { plan_writes result ≡ take_writes disk.entry.bytes.now name.now.bytes }
    {
        Plan {
            content: &[],
            blocks: BlockList::new(),
            last: write_without(disk, name),
        }
    }

    // What the request asks for; or its answer, where it is refused or there is no room.
    pub fn of(disk: &[u8], request: Request<'a>) -> Result<Plan<'a>, Done>
        ensures { PlanSays disk.now (asked request.entry) result }
    {
        match request {
            Request::Put { name, content, .. } => {
                let (disk, name) = admit(disk, name)?;
                if content.len() > Disk::LONGEST {
                    return Err(Done::Refused(Refusal::TooLong));
                }
                Plan::of_put(disk, name, content).ok_or(Done::Full)
            }
            Request::Away { name, .. } => {
                let (disk, name) = admit(disk, name)?;
                Ok(Plan::of_away(disk, &name))
            }
        }
    }

    // Write k of the request: a block of the file's bytes, or last the block of entries.
    pub fn write(&self, k: usize) -> Option<Write>
        ensures { result ≡ nth_write (plan_writes self.now) k }
    {
        let blocks = self.blocks.as_slice();
        // The block of entries comes behind the bytes.
        let entries = blocks.len();
        if k == entries {
            return self.last;
        }
        let block = blocks.get(k)?;
        Some(Write {
            to: usize::from(*block),
            bytes: chunk(self.content, k * Disk::BLOCK),
        })
    }
}
