// A disk compared with the files that it should have, as the library reads it and as the machine does.
use crate::change::NAMES;
use crate::machine::{LONGEST, Machine};
use crate::model::{Model, Name};
use fsck::judge::first_fault;
use fsck::usage::blocks_in_use;
use layout::disk::Disk;
use layout::entry::Entry;
use reader::read::{entry_of, read_file};
use std::error::Error;
use std::fmt;
use update::answer::Done;

// What is otherwise than it should be.
#[derive(Debug, Clone, Copy, PartialEq, Eq)]
pub enum Difference {
    Answer,
    Fault,
    Listing,
    FreeBlocks,
    // Of this name, as the library reads it.
    File(Name),
    Entry(Name),
    // And as the machine does.
    MachineFile(Name),
    // More blocks are changed than power lasted for.
    Writes,
    // The writes of the plan, one by one, leave another disk.
    Plan,
    // What a damaged disk's judgement is, or what a request leaves of one.
    Judgement,
    Damaged,
}

impl fmt::Display for Difference {
    fn fmt<W: fmt::Write>(&self, f: &mut fmt::Formatter<W>) -> fmt::Result {
        match self {
            Difference::Answer => write!(f, "another answer"),
            Difference::Fault => write!(f, "the disk isn't sound"),
            Difference::Listing => write!(f, "another listing"),
            Difference::FreeBlocks => write!(f, "another number of free blocks"),
            Difference::File(name) => write!(f, "another file \"{}\"", name.escape_ascii()),
            Difference::Entry(name) => write!(f, "another entry \"{}\"", name.escape_ascii()),
            Difference::MachineFile(name) => {
                write!(
                    f,
                    "another file \"{}\" in the old machine",
                    name.escape_ascii()
                )
            }
            Difference::Writes => write!(f, "more blocks are changed than power lasted for"),
            Difference::Plan => write!(f, "the writes of the plan leave another disk"),
            Difference::Judgement => write!(f, "a damaged disk is judged otherwise"),
            Difference::Damaged => write!(f, "a damaged disk is changed"),
        }
    }
}

impl Error for Difference {}

// The answer that has to come, with power for so many writes.
pub fn expected(writes: Result<u64, Done>, lasts: u64) -> Done {
    match writes {
        Ok(writes) if lasts >= writes => Done::Finished,
        Ok(_) => Done::Cut,
        Err(answer) => answer,
    }
}

// How many blocks differ.
pub fn changed_blocks(before: &[u8], after: &[u8]) -> u64 {
    before
        .chunks(Disk::BLOCK)
        .zip(after.chunks(Disk::BLOCK))
        .filter(|(a, b)| a != b)
        .count() as u64
}

// The file under the name, in both readings.
fn compare_file(
    disk: &[u8],
    name: &Name,
    expected: Option<&[u8]>,
    room: &mut [u8; LONGEST],
) -> Result<(), Difference> {
    let view = Disk::new(disk);
    let read = view
        .lookup(&layout::name::Name { bytes: *name })
        .and_then(|entry| view.copy_file(&entry, room).ok())
        .and_then(|len| room.get(0..len));
    if read != expected {
        return Err(Difference::File(*name));
    }
    if Machine::new(disk).read(name, room) != expected {
        return Err(Difference::MachineFile(*name));
    }
    Ok(())
}

// The file and the entry of the name that was asked for, by the calls that judge the disk themselves.
fn compare_asked(
    disk: &[u8],
    name: &Name,
    expected: Option<&[u8]>,
    room: &mut [u8; LONGEST],
) -> Result<(), Difference> {
    let read = match read_file(disk, name, room) {
        Done::Read(len) => room.get(0..len),
        _ => None,
    };
    if read != expected {
        return Err(Difference::File(*name));
    }
    let entry = entry_of(disk, name);
    if expected.is_none() && entry.is_empty() {
        return Ok(());
    }
    if entry.get(1..12) != Some(&name[..]) {
        return Err(Difference::Entry(*name));
    }
    Ok(())
}

// Whether a file of the model has the entry's name and length.
fn is_listed(entry: &Entry, model: &Model) -> bool {
    model
        .file(&entry.name.bytes)
        .is_some_and(|content| content.len() == usize::from(entry.len))
}

// The names and lengths of all files.
fn compare_listing(disk: &[u8], model: &Model) -> Result<(), Difference> {
    let entries = Disk::new(disk).entries().ok_or(Difference::Listing)?;
    let listed = entries
        .iter()
        .all(|entry| !entry.used || is_listed(entry, model));
    let used = entries.iter().filter(|entry| entry.used).count();
    if !listed || used != model.len() || Machine::new(disk).files() != used {
        return Err(Difference::Listing);
    }
    Ok(())
}

fn compare_free(disk: &[u8], model: &Model) -> Result<(), Difference> {
    let blocks = (disk.len() / Disk::BLOCK).saturating_sub(Disk::ENTRY_BLOCKS);
    let free = model.free();
    if blocks.saturating_sub(blocks_in_use(disk).count()) != free
        || blocks.saturating_sub(Machine::new(disk).blocks()) != free
    {
        return Err(Difference::FreeBlocks);
    }
    Ok(())
}

// All of it: soundness, the listing, the free blocks, and the files of all names, those that are there and those that come again. Gives how many files were compared.
pub fn compare(disk: &[u8], model: &Model, asked: &[u8]) -> Result<u64, Difference> {
    if first_fault(disk).is_some() || Machine::new(disk).fault().is_some() {
        return Err(Difference::Fault);
    }
    compare_listing(disk, model)?;
    compare_free(disk, model)?;
    let mut room = [0; LONGEST];
    let asked = Name::try_from(asked).ok();
    if let Some(name) = &asked {
        compare_asked(disk, name, model.file(name), &mut room)?;
    }
    for name in NAMES.iter().chain(model.files.keys()) {
        compare_file(disk, name, model.file(name), &mut room)?;
    }
    let compared = asked.iter().chain(&NAMES).chain(model.files.keys());
    Ok(compared.count() as u64)
}
