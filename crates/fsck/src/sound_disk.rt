// A disk that was found sound.
ghost use Rattle.std.specs.Prelude.{◌≡◌, true, Some, None, MatchResult, IfOk, IfErr, map};
ghost use Rattle.layout.specs.Entries.{decoded};
ghost use Rattle.layout.specs.Files.{entries};
ghost use Rattle.fsck.specs.Sound.{sound, first_fault};
ghost use Rattle.fsck.specs.Faults.{fault_of_place};
ghost use Rattle.fsck.specs.Faults as faults;
ghost use Rattle.fsck.specs.Blocks.{size};
ghost use Rattle.std.specs.Option.{option_map};

use crate::fault::Fault;
use crate::judge::first_fault;
use layout::disk::Disk;
use layout::entry::Entry;

// The bytes of a sound disk. Whoever has one need not judge it again.
#[derive(Clone, Copy)]
pub struct SoundDisk<'a> {
    bytes: &'a [u8],
    ghost sound: { sound bytes.now ≡ true },
}

impl<'a> SoundDisk<'a> {
    // The disk, if it is sound; else its first fault. No `TryFrom`: the name says that all of it is judged.
    pub fn check(bytes: &'a [u8]) -> Result<SoundDisk<'a>, Fault>
        ensures answer { MatchResult result (λ disk. (sound bytes.now ≡ true) × (disk.bytes ≡ bytes.entry)) (λ fault. option_map fault_of_place (first_fault bytes.now) ≡ Some fault) }
        ensures faultless { IfOk result (λ _. first_fault bytes.now ≡ None) }
        ensures place { IfErr result (λ fault. first_fault bytes.now ≡ Some (faults.place fault)) }
    {
        match first_fault(bytes) {
            None => Ok(SoundDisk { bytes }),
            Some(fault) => Err(fault),
        }
    }

    pub fn bytes(&self) -> &'a [u8]
        ensures { result ≡ self.now.bytes }
    {
        self.bytes
    }

    // The disk as the old machine reads it.
    pub fn view(&self) -> Disk<'a>
        ensures { result.bytes ≡ self.now.bytes }
    {
        Disk::new(self.bytes)
    }

    // The parts of the disk that spell its entries, in their order.
    pub fn table(&self) -> &'a [[u8; Disk::ENTRY]; Disk::ENTRIES]
        ensures { map decoded result.now ≡ entries self.now.bytes.now }
    {
        self.view().table().unwrap()
    }

    // All entries in their order.
    pub fn entries(&self) -> [Entry; Disk::ENTRIES]
        ensures { result ≡ entries self.now.bytes.now }
    {
        self.view().entries().unwrap()
    }

    // How many blocks the disk has.
    pub fn blocks(&self) -> usize
        ensures { result ≡ size self.now.bytes.now }
    {
        self.bytes.len() / Disk::BLOCK
    }
}
