// Files taken away, with power for some writes and for none.
use crate::answer::{Done, Refusal};
use crate::away::take_away;
use layout::disk::Disk;
use layout::entry::Entry;
use layout::name::Name;
use std::alloc::{AllocError, Global};
use std::test::Fail;

const ROSE: &[u8; Name::SIZE] = b"ROSE       ";

const LEAF: &[u8; Name::SIZE] = b"LEAF       ";

// Each crate's tests make their own entries, since no crate is there for tests alone.
fn entry(name: &[u8; Name::SIZE], block: u8) -> Entry {
    Entry {
        used: true,
        name: Name { bytes: *name },
        len: 1,
        blocks: [block; Disk::FILE_BLOCKS],
        unread: [5, 6],
    }
}

// A disk of ten blocks whose first block of entries has ROSE and LEAF.
fn two_files(heap: Global) -> Result<Vec<u8>, AllocError> {
    let mut disk = Vec::new(heap);
    disk.extend_from_slice(&entry(ROSE, 8).encode())?;
    disk.extend_from_slice(&entry(LEAF, 9).encode())?;
    disk.resize(10 * Disk::BLOCK, 0)?;
    Ok(disk)
}

// The disk is as it was but for the first byte of an entry, which is 0.
fn is_freed(heap: Global, disk: &[u8], at: usize) -> Result<bool, AllocError> {
    let mut freed = two_files(heap)?;
    if let Some(first) = freed.get_mut(at) {
        *first = 0;
    }
    Ok(disk == freed.as_slice())
}

#[test]
fn from_both_halves_of_a_block(rt: HostRuntime) -> Result<(), Fail> {
    let heap = rt.alloc();
    let mut disk = two_files(heap)?;
    assert_eq!(rt; take_away(disk.as_mut_slice(), ROSE, 0), Done::Cut);
    assert!(rt; is_freed(heap, disk.as_slice(), disk.len())?);
    assert_eq!(rt; take_away(disk.as_mut_slice(), ROSE, 1), Done::Finished);
    assert!(rt; is_freed(heap, disk.as_slice(), 0)?);
    let mut disk = two_files(heap)?;
    assert_eq!(rt;
        take_away(disk.as_mut_slice(), LEAF, u64::MAX),
        Done::Finished
    );
    assert!(rt; is_freed(heap, disk.as_slice(), Disk::ENTRY)?);
    assert_eq!(rt;
        take_away(disk.as_mut_slice(), LEAF, 0),
        Done::Finished,
        "there is none, so nothing is to be written"
    );
    assert!(rt; is_freed(heap, disk.as_slice(), Disk::ENTRY)?);
    Ok(())
}

#[test]
fn refusals(rt: HostRuntime) -> Result<(), Fail> {
    let heap = rt.alloc();
    let mut disk = two_files(heap)?;
    assert_eq!(rt;
        take_away(disk.as_mut_slice(), b"ROSE", 1),
        Done::Refused(Refusal::BadName)
    );
    assert_eq!(rt;
        take_away(disk.as_mut_slice(), b"TULIP      ", 1),
        Done::Finished
    );
    assert!(rt; is_freed(heap, disk.as_slice(), disk.len())?);
    disk.truncate(Disk::BLOCK);
    assert_eq!(rt;
        take_away(disk.as_mut_slice(), b"ROSE", 1),
        Done::Refused(Refusal::Unsound)
    );
    Ok(())
}
