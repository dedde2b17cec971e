// An entry of a disk: what its 32 bytes spell.
ghost use Rattle.std.specs.Prelude.{◌≡◌, ◌+◌, ◌≤◌, ◌&&◌, length, slice_index};
ghost use Rattle.std.specs.Str.{bytes_eq};
ghost use Rattle.layout.specs.Entries.{decoded, encoded, blocks_of};
ghost use Rattle.layout.specs.Parts.{replaced};

use crate::disk::Disk;
use crate::name::Name;

#[derive(Clone, Copy, Debug, PartialEq, Eq)]
pub struct Entry {
    pub used: bool,
    pub name: Name,
    // The file's bytes.
    pub len: u16,
    // The numbers of the file's blocks, as many as it needs; the others have no meaning.
    pub blocks: [u8; Disk::FILE_BLOCKS],
    // The two bytes that the old machine doesn't read.
    pub unread: [u8; 2],
}

// A copy of bytes whose number is known.
pub(crate) fn array<const N: usize>(bytes: &[u8]) -> [u8; N]
    requires { length bytes.now ≡ N }
    ensures { result ≡ bytes.now }
{
    <[u8; N]>::try_from(bytes).unwrap()
}

// Puts the part in the place of what stood from `at` on.
fn replace_at(bytes: &mut [u8], at: usize, part: &[u8])
    requires { at + length part.now ≤ length bytes.old }
    ensures { bytes.new ≡ replaced bytes.old at part.now }
{
    bytes[at..at + part.len()].copy_from_slice(part);
}

impl Entry {
    // Where the fields of an entry begin.
    pub(crate) const NAME_AT: usize = 1;

    pub(crate) const LEN_AT: usize = Entry::NAME_AT + Name::SIZE;

    pub const BLOCKS_AT: usize = Entry::LEN_AT + 2;

    const UNREAD_AT: usize = Entry::BLOCKS_AT + Disk::FILE_BLOCKS;

    // The entry that 32 bytes spell. It is no `From`, since something is lost: any first byte but 1 is read as not in use.
    pub fn decode(bytes: &[u8; Disk::ENTRY]) -> Entry
        ensures fields { result ≡ decoded bytes.now }
        ensures back { slice_index bytes.now 0 ≤ 1 → encoded result ≡ bytes.now }
    {
        let name = array(&bytes[Entry::NAME_AT..Entry::LEN_AT]);
        let len: [u8; 2] = array(&bytes[Entry::LEN_AT..Entry::BLOCKS_AT]);
        Entry {
            used: bytes[0] == 1,
            name: Name { bytes: name },
            len: u16::from_le_bytes(len),
            blocks: array(&bytes[Entry::BLOCKS_AT..Entry::UNREAD_AT]),
            unread: array(&bytes[Entry::UNREAD_AT..Disk::ENTRY]),
        }
    }
    // The 32 bytes that spell this entry. Named as `decode` is, whose other half it is.
    pub fn encode(&self) -> [u8; Disk::ENTRY]
        ensures bytes { result ≡ encoded self.now }
        ensures back { decoded result ≡ self.now }
    {
        let len = self.len;
        let mut bytes = [0; Disk::ENTRY];
        bytes[0] = u8::from(self.used);
        replace_at(&mut bytes, Entry::NAME_AT, &self.name.bytes);
        replace_at(&mut bytes, Entry::LEN_AT, &len.to_le_bytes());
        replace_at(&mut bytes, Entry::BLOCKS_AT, &self.blocks);
        replace_at(&mut bytes, Entry::UNREAD_AT, &self.unread);
        bytes
    }

    // Whether the entry is in use and has the name.
    pub fn is_named(&self, name: &Name) -> bool
        ensures { result ≡ (self.now.used && bytes_eq self.now.name.bytes name.now.bytes) }
    {
        self.used && self.name == *name
    }

    // The numbers of the file's blocks, in order: as many as it needs.
    pub fn file_blocks(&self) -> &[u8]
        ensures { result.now ≡ blocks_of self.now }
    {
        let needed = Disk::blocks_needed(usize::from(self.len));
        &self.blocks[0..needed.min(Disk::FILE_BLOCKS)]
    }
}
