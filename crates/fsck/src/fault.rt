// Where a disk isn't sound.
ghost use Rattle.std.specs.Prelude.{◌≡◌};
ghost use Rattle.fsck.specs.Faults.{place};

use layout::disk::Disk;

// What has the first fault of a disk.
#[derive(Clone, Copy, Debug, PartialEq, Eq)]
pub enum Fault {
    // The disk's size.
    Size,
    // The entry of this number.
    Entry(usize),
}

impl Fault {
    // The number that is printed for it: the entry's, or, for the size, the one behind the last entry's. A name, and no `From`, says which number it is.
    pub fn place(self) -> usize
        ensures { result ≡ place self }
    {
        match self {
            Fault::Size => Disk::ENTRIES,
            Fault::Entry(i) => i,
        }
    }
}
