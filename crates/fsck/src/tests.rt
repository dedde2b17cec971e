// Disks that are sound, and disks with one fault each.
use crate::fault::Fault;
use crate::judge::first_fault;
use layout::disk::Disk;
use layout::entry::Entry;
use layout::name::Name;
use std::alloc::{AllocError, Global};
use std::test::Fail;

// Each crate's tests make their own entries, since no crate is there for tests alone.
// An entry in use, with a name of one letter repeated.
fn entry(letter: u8, len: u16, first: u8, second: u8) -> Entry {
    let mut blocks = [0; Disk::FILE_BLOCKS];
    blocks[0] = first;
    blocks[1] = second;
    Entry {
        used: true,
        name: Name {
            bytes: [letter; Name::SIZE],
        },
        len,
        blocks,
        unread: [0, 0],
    }
}

// A disk of twelve blocks that begins with these entries.
fn disk_of(heap: Global, entries: &[Entry]) -> Result<Vec<u8>, AllocError> {
    let mut bytes = Vec::new(heap);
    for entry in entries {
        bytes.extend_from_slice(&entry.encode())?;
    }
    bytes.resize(12 * Disk::BLOCK, 0)?;
    Ok(bytes)
}

// The place of the first fault.
fn place_of(disk: &[u8]) -> Option<usize> {
    first_fault(disk).map(Fault::place)
}

fn fault_of(heap: Global, entries: &[Entry]) -> Result<Option<usize>, AllocError> {
    Ok(place_of(disk_of(heap, entries)?.as_slice()))
}

#[test]
fn sizes(rt: HostRuntime) -> Result<(), Fail> {
    let mut zeros = Vec::new(rt.alloc());
    assert_eq!(rt; place_of(zeros.as_slice()), Some(16));
    for (len, fault) in [
        (1, Some(16)),
        (8 * Disk::BLOCK, Some(16)),
        (9 * Disk::BLOCK, None),
        (9 * Disk::BLOCK + 1, Some(16)),
        (250 * Disk::BLOCK - 1, Some(16)),
        (250 * Disk::BLOCK, None),
        (251 * Disk::BLOCK, Some(16)),
    ] {
        zeros.resize(len, 0)?;
        assert_eq!(rt; place_of(zeros.as_slice()), fault);
    }
    Ok(())
}

#[test]
fn first_byte_of_an_entry(rt: HostRuntime) -> Result<(), Fail> {
    let mut disk = Vec::new(rt.alloc());
    disk.resize(3 * Disk::ENTRY, 0)?;
    disk.push(2)?;
    disk.resize(12 * Disk::BLOCK, 0)?;
    assert_eq!(rt; place_of(disk.as_slice()), Some(3));
    Ok(())
}

#[test]
fn lengths(rt: HostRuntime) -> Result<(), Fail> {
    let mut longest = entry(b'A', 1024, 8, 9);
    longest.blocks = [8, 9, 10, 11, 12, 13, 14, 15, 16, 17, 18, 19, 20, 21, 22, 23];
    let mut disk = longest.encode().to_vec(rt.alloc())?;
    disk.resize(24 * Disk::BLOCK, 0)?;
    assert_eq!(rt; place_of(disk.as_slice()), None);
    longest.len = 1025;
    let mut disk = longest.encode().to_vec(rt.alloc())?;
    disk.resize(24 * Disk::BLOCK, 0)?;
    assert_eq!(rt; place_of(disk.as_slice()), Some(0));
    Ok(())
}

#[test]
fn blocks(rt: HostRuntime) -> Result<(), Fail> {
    let heap = rt.alloc();
    assert_eq!(rt; fault_of(heap, &[entry(b'A', 128, 8, 11)])?, None);
    assert_eq!(rt;
        fault_of(heap, &[entry(b'A', 128, 8, 7)])?,
        Some(0),
        "a block of entries"
    );
    assert_eq!(rt;
        fault_of(heap, &[entry(b'A', 128, 8, 12)])?,
        Some(0),
        "the edge of the disk"
    );
    assert_eq!(rt;
        fault_of(heap, &[entry(b'A', 128, 8, 8)])?,
        Some(0),
        "twice in one"
    );
    assert_eq!(rt;
        fault_of(heap, &[entry(b'A', 64, 8, 8)])?,
        None,
        "a number that isn't needed"
    );
    assert_eq!(rt;
        fault_of(heap, &[entry(b'A', 64, 8, 0), entry(b'B', 65, 9, 8)])?,
        Some(1),
        "twice in two"
    );
    let mut unused = entry(b'A', 2000, 8, 3);
    unused.used = false;
    assert_eq!(rt;
        fault_of(heap, &[unused, entry(b'B', 65, 9, 8)])?,
        None,
        "one of an unused entry"
    );
    Ok(())
}

#[test]
fn names(rt: HostRuntime) -> Result<(), Fail> {
    let heap = rt.alloc();
    assert_eq!(rt;
        fault_of(heap, &[entry(b'A', 1, 8, 0), entry(b'A', 1, 9, 0)])?,
        Some(1)
    );
    let mut unused = entry(b'A', 1, 8, 0);
    unused.used = false;
    assert_eq!(rt; fault_of(heap, &[unused, entry(b'A', 1, 9, 0)])?, None);
    Ok(())
}
