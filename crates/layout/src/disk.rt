// The disk's type: its limits, and what the old machine does with it.
ghost use Rattle.std.specs.Prelude.{◌≡◌, true, false, if◌then◌else◌, Some, None, MatchOption, map, position, ◌&&◌};
ghost use Rattle.std.specs.Str.{bytes_eq};
ghost use Rattle.layout.specs.Entries.{needs, decoded};
ghost use Rattle.layout.specs.Files.{has_entries, has_entry, entries, held, EntryPart, entry_if, block, content, find, found, entry_of, Copies};
ghost use Rattle.layout.specs.Words.{FewestBlocks, First, NoFile};

use crate::entry::{Entry, array};
use crate::name::Name;

// The room is shorter than the file, which needs so many bytes.
#[derive(Clone, Copy, Debug, PartialEq, Eq)]
pub struct RoomTooShort {
    pub needed: usize,
}

// A disk's bytes, as the old machine reads them. They may be any bytes: what is not there is refused where it is asked for.
#[derive(Clone, Copy)]
pub struct Disk<'a> {
    bytes: &'a [u8],
}

// Whether the part spells an entry in use with the name. The rest of it is not decoded.
#[tactic(auto, unfolding(crate::specs::Entries::decoded))]
fn spells_name(part: &[u8; Disk::ENTRY], name: &Name) -> bool
    ensures { result ≡ ((decoded part.now).used && bytes_eq (decoded part.now).name.bytes name.now.bytes) }
{
    part[0] == 1 && &part[Entry::NAME_AT..Entry::LEN_AT] == name.bytes.as_slice()
}

// The place of the first of these parts that spells an entry in use with the name. Those behind it are not looked at.
fn position_named(table: &[[u8; Disk::ENTRY]], name: &Name) -> Option<usize>
    ensures { result ≡ position (λ e. e.used && bytes_eq e.name.bytes name.now.bytes) (map decoded table.now) }
{
    table.iter().position(|part| spells_name(part, name))
}

impl<'a> Disk<'a> {
    // The bytes of a block.
    pub const BLOCK: usize = 64;
    // The fewest and the most blocks of a disk.
    pub const LEAST: usize = 9;

    pub const MOST: usize = 250;

    pub const ENTRIES: usize = 16;
    // The bytes of an entry.
    pub const ENTRY: usize = 32;
    // The first blocks of the disk, which hold the entries.
    pub const ENTRY_BLOCKS: usize = 8;
    // The most bytes of a file, and the most blocks.
    pub const LONGEST: usize = 1024;

    pub const FILE_BLOCKS: usize = Disk::LONGEST / Disk::BLOCK;

    pub fn new(bytes: &'a [u8]) -> Disk<'a>
        ensures { result.bytes ≡ bytes.entry }
    {
        Disk { bytes }
    }

    // How many blocks the bytes of a file need, the last perhaps not full.
    pub fn blocks_needed(len: usize) -> usize
        ensures value { result ≡ needs len }
        ensures fewest { FewestBlocks len result }
    {
        len.div_ceil(Disk::BLOCK)
    }

    // The 32 bytes of entry i, as a part of the disk, unless there are not so many entries or the disk is too short to hold them.
    pub fn entry_bytes(&self, i: usize) -> Option<&'a [u8]>
        ensures { MatchOption result (has_entry (held self.now) i ≡ false) (λ p. (has_entry (held self.now) i ≡ true) × EntryPart self.now.bytes i p) }
    {
        if self.bytes.len() < Disk::ENTRIES * Disk::ENTRY || i >= Disk::ENTRIES {
            return None;
        }
        let at = i * Disk::ENTRY;
        Some(&self.bytes[at..at + Disk::ENTRY])
    }

    // Entry i, where it is there.
    pub fn entry(&self, i: usize) -> Option<Entry>
        ensures { result ≡ entry_if (held self.now) i }
    {
        let bytes = self.entry_bytes(i)?;
        Some(Entry::decode(&array(bytes)))
    }

    // The parts of the disk that spell its entries, in their order, where it is long enough to hold them: for whoever decodes one entry, or one after the other up to the first of some kind.
    pub fn table(&self) -> Option<&'a [[u8; Disk::ENTRY]; Disk::ENTRIES]>
        ensures { MatchOption result (has_entries (held self.now) ≡ false) (λ table. (has_entries (held self.now) ≡ true) × (map decoded table.now ≡ entries (held self.now))) }
    {
        let (parts, _) = self.bytes.as_chunks::<{ Disk::ENTRY }>();
        parts.first_chunk::<{ Disk::ENTRIES }>()
    }

    // All entries in their order, decoded, where the disk is long enough to hold them: for whoever goes over them again and again.
    pub fn entries(&self) -> Option<[Entry; Disk::ENTRIES]>
        ensures { result ≡ (if has_entries (held self.now) then Some (entries (held self.now)) else None) }
    {
        let table = self.table()?;
        let decode = |part: [u8; Disk::ENTRY]| -> Entry
            ensures { result ≡ decoded part }
        { Entry::decode(&part) };
        Some(table.map(decode))
    }

    // The place of the first entry that is in use and has the name.
    pub fn find(&self, name: &Name) -> Option<usize>
        ensures value { result ≡ found (held self.now) name.now.bytes }
        ensures first { First (held self.now) name.now.bytes (find (held self.now) name.now.bytes) }
    {
        position_named(self.table()?, name)
    }

    // The entry whose file the old machine reads under the name.
    pub fn lookup(&self, name: &Name) -> Option<Entry>
        ensures value { result ≡ (if has_entries (held self.now) then entry_of (held self.now) name.now.bytes else None) }
        ensures none { NoFile (held self.now) name.now.bytes }
    {
        let place = self.find(name)?;
        self.entry(place)
    }

    // The bytes of block b that are on the disk.
    fn block(&self, b: u8) -> &'a [u8]
        ensures { result.now ≡ block (held self.now) b }
    {
        let from = (usize::from(b) * Disk::BLOCK).min(self.bytes.len());
        let to = (from + Disk::BLOCK).min(self.bytes.len());
        &self.bytes[from..to]
    }

    // Puts the bytes of the entry's file into the front of the room and answers how many they are; or refuses a room that is shorter than the entry's length, and leaves it as it was. The room is the caller's, since nothing here takes memory.
    pub fn copy_file(&self, file: &Entry, room: &mut [u8]) -> Result<usize, RoomTooShort>
        ensures { Copies file.now.len (content (held self.now) file.now) room.old result room.new }
    {
        let len = usize::from(file.len);
        if room.len() < len {
            return Err(RoomTooShort { needed: len });
        }
        // A place, and no `chunks_mut`: a block past the end of the disk is shorter than the others.
        let mut at = 0;
        for b in file.file_blocks() {
            let bytes = self.block(*b);
            let n = bytes.len().min(len - at);
            room[at..at + n].copy_from_slice(&bytes[0..n]);
            at += n;
        }
        Ok(at)
    }
}
