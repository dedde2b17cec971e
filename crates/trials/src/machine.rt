// An old machine of its own, straight from the rules of the format. It shares no code with the library.
ghost use Rattle.std.specs.Prelude.{◌<◌, ◌≤◌, length, IfSome};

// The machine, with a disk in it.
#[derive(Clone, Copy)]
pub struct Machine<'a> {
    disk: &'a [u8],
}

// At what a disk isn't sound: its size, or the first entry that has a fault.
#[derive(Debug, Clone, Copy, PartialEq, Eq)]
pub enum Fault {
    Size,
    Entry(usize),
}

// The most bytes of a file.
pub const LONGEST: usize = 1024;

// An entry of the disk: 32 bytes.
#[derive(Clone, Copy)]
struct Entry<'a> {
    bytes: &'a [u8; 32],
}

impl<'a> Entry<'a> {
    fn is_used(self) -> bool {
        self.bytes[0] == 1
    }

    fn name(self) -> &'a [u8] {
        let bytes = self.bytes;
        &bytes[1..12]
    }

    // How many bytes the file has: the low byte first.
    fn len(self) -> usize
        ensures { result < 65536 }
    {
        usize::from(u16::from_le_bytes([self.bytes[12], self.bytes[13]]))
    }

    // How many blocks they fill, the last perhaps not wholly.
    fn filled(self) -> usize
        ensures { result ≤ 1024 }
    {
        self.len().div_ceil(64)
    }

    // The numbers of those blocks.
    fn blocks(self) -> &'a [u8] {
        let bytes = self.bytes;
        &bytes[14..14 + self.filled().min(16)]
    }
}

// Marks the blocks as taken; false where one of them is not for files, not on the disk, or taken before. A `bool`, as below: a judgement is a yes or a no.
fn take_blocks(blocks: &[u8], size: usize, taken: &mut [bool; 256]) -> bool {
    for b in blocks {
        let b = usize::from(*b);
        if b < 8 || b >= size || taken[b] {
            return false;
        }
        taken[b] = true;
    }
    true
}

impl<'a> Machine<'a> {
    pub fn new(disk: &'a [u8]) -> Machine<'a> {
        Machine { disk }
    }

    // The sixteen entries, or as many as the disk has.
    fn entries(&self) -> &'a [[u8; 32]]
        ensures { length result.now ≤ 16 }
    {
        let (entries, _) = self.disk.as_chunks::<32>();
        &entries[..entries.len().min(16)]
    }

    // Whether an entry in use before entry i has the name.
    fn is_taken(&self, name: &[u8], i: usize) -> bool {
        self.entries()
            .iter()
            .map(|bytes| Entry { bytes })
            .take(i)
            .any(|entry| entry.is_used() && entry.name() == name)
    }

    fn is_sound_entry(&self, i: usize, entry: Entry<'_>, taken: &mut [bool; 256]) -> bool {
        match entry.bytes[0] {
            0 => true,
            1 => {
                entry.len() <= LONGEST
                    && !self.is_taken(entry.name(), i)
                    && take_blocks(entry.blocks(), self.disk.len() / 64, taken)
            }
            _ => false,
        }
    }

    // Why the disk isn't sound, if it isn't.
    pub fn fault(&self) -> Option<Fault> {
        let blocks = self.disk.len() / 64;
        if self.disk.len() % 64 != 0 || blocks < 9 || blocks > 250 {
            return Some(Fault::Size);
        }
        let mut taken = [false; 256];
        // A loop, and no `find`: each entry adds its blocks to those that are taken for the next.
        for (i, bytes) in self.entries().iter().enumerate() {
            if !self.is_sound_entry(i, Entry { bytes }, &mut taken) {
                return Some(Fault::Entry(i));
            }
        }
        None
    }

    // The place of the first entry that is in use and has the name.
    fn find(&self, name: &[u8]) -> Option<usize>
        ensures { IfSome result (λ i. i < 16) }
    {
        self.entries()
            .iter()
            .map(|bytes| Entry { bytes })
            .position(|entry| entry.is_used() && entry.name() == name)
    }

    // The file's bytes, once they are in the room; nothing where there is no file, or where it has more bytes than the room.
    pub fn read<'r>(&self, name: &[u8], room: &'r mut [u8; LONGEST]) -> Option<&'r [u8]> {
        let bytes = self.entries().get(self.find(name)?)?;
        let entry = Entry { bytes };
        // A block past the end of the disk leaves its part of the room alone.
        for (part, b) in room.chunks_exact_mut(64).zip(entry.blocks()) {
            let from = 64 * usize::from(*b);
            if let Some(block) = self.disk.get(from..from + 64) {
                part.copy_from_slice(block);
            }
        }
        room.get(0..entry.len())
    }

    // How many files there are.
    pub fn files(&self) -> usize {
        self.entries()
            .iter()
            .map(|bytes| Entry { bytes })
            .filter(|entry| entry.is_used())
            .count()
    }

    // How many blocks they fill.
    pub fn blocks(&self) -> usize {
        self.entries()
            .iter()
            .map(|bytes| Entry { bytes })
            .filter(|entry| entry.is_used())
            .map(|entry| entry.filled())
            .fold(0, usize::saturating_add)
    }
}
