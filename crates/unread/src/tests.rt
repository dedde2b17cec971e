// A disk of thirty blocks with files of 0, 1, 64, 100 and 1,024 bytes, and its unread places worked out by hand.
use crate::place::is_unread;
use crate::runs::unread_runs;
use fsck::fault::Fault;
use layout::disk::Disk;
use layout::entry::Entry;
use layout::name::Name;
use std::alloc::{AllocError, Global};
use std::array;
use std::test::Fail;

// The first place of each range, and the first behind it: pairs, to be read as a table.
const RANGES: [(usize, usize); 19] = [
    // The file of no bytes: all behind its length.
    (14, 32),
    // Of 1, 64 and 100 bytes: all behind one, one and two block numbers.
    (47, 64),
    (79, 96),
    (112, 128),
    // Of 1,024 bytes: the last two.
    (158, 160),
    // Eleven entries that aren't in use: all but the flag.
    (161, 192),
    (193, 224),
    (225, 256),
    (257, 288),
    (289, 320),
    (321, 352),
    (353, 384),
    (385, 416),
    (417, 448),
    (449, 480),
    (481, 512),
    // Block 8, behind its one byte.
    (513, 576),
    // Block 11, which is free.
    (704, 768),
    // Block 28, behind the last 36 of 100 bytes, and block 29, which is free.
    (1828, 1920),
];

// Each crate's tests make their own entries, since no crate is there for tests alone.
// An entry in use, with a name of one letter repeated and blocks from the first on.
fn entry(letter: u8, len: u16, first: u8) -> Entry {
    let blocks = array::from_fn(|k| first.saturating_add(k as u8));
    Entry {
        used: true,
        name: Name {
            bytes: [letter; Name::SIZE],
        },
        len,
        blocks,
        unread: [0xff, 0xff],
    }
}

fn disk(heap: Global) -> Result<Vec<u8>, AllocError> {
    let mut hundred = entry(b'd', 100, 10);
    hundred.blocks[1] = 28;
    let mut bytes = Vec::new(heap);
    for entry in [
        entry(b'a', 0, 8),
        entry(b'b', 1, 8),
        entry(b'c', 64, 9),
        hundred,
        entry(b'e', 1024, 12),
    ] {
        bytes.extend_from_slice(&entry.encode())?;
    }
    bytes.resize(30 * Disk::BLOCK, 0)?;
    Ok(bytes)
}

#[test]
fn ranges_of_files_of_all_lengths(rt: HostRuntime) -> Result<(), Fail> {
    let disk = disk(rt.alloc())?;
    let ranges: Vec<(usize, usize)> = unread_runs(disk.as_slice())?
        .map(|run| (run.start, run.end))
        .collect(rt.alloc())?;
    assert_eq!(rt; ranges.as_slice(), RANGES.as_slice());
    Ok(())
}

#[test]
fn places_one_by_one(rt: HostRuntime) -> Result<(), Fail> {
    let disk = disk(rt.alloc())?;
    for place in 0..disk.len() + 2 {
        let unread = RANGES
            .iter()
            .any(|(first, end)| (*first..*end).contains(&place));
        assert_eq!(rt; is_unread(disk.as_slice(), place), Ok(unread));
    }
    Ok(())
}

#[test]
fn disks_that_are_not_sound(rt: HostRuntime) -> Result<(), Fail> {
    let mut disk = disk(rt.alloc())?;
    if let Some(flag) = disk.get_mut(3 * Disk::ENTRY) {
        *flag = 2;
    }
    assert_eq!(rt; is_unread(disk.as_slice(), 0).map_err(Fault::place), Err(3));
    assert_eq!(rt;
        unread_runs(disk.as_slice()).err().map(Fault::place),
        Some(3)
    );
    assert_eq!(rt; is_unread(&[], 0).map_err(Fault::place), Err(16));
    Ok(())
}
