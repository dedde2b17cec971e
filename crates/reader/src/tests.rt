// Requests that are refused, answered and answered short.
use crate::read::{entry_of, read_file};
use layout::disk::Disk;
use layout::entry::Entry;
use layout::name::Name;
use std::alloc::{AllocError, Global};
use std::test::Fail;
use update::answer::{Done, Refusal};

const ROSE: &[u8; Name::SIZE] = b"ROSE       ";

// A disk of nine blocks whose second entry is ROSE, of three bytes, in block 8.
fn rose(heap: Global) -> Result<Vec<u8>, AllocError> {
    let mut blocks = [0; Disk::FILE_BLOCKS];
    blocks[0] = 8;
    let entry = Entry {
        used: true,
        name: Name { bytes: *ROSE },
        len: 3,
        blocks,
        unread: [0, 0],
    };
    let mut disk = Vec::new(heap);
    disk.resize(Disk::ENTRY, 0)?;
    disk.extend_from_slice(&entry.encode())?;
    disk.resize(8 * Disk::BLOCK, 0)?;
    disk.resize(9 * Disk::BLOCK, 7)?;
    Ok(disk)
}

#[test]
fn a_file_in_rooms_of_several_sizes(rt: HostRuntime) -> Result<(), Fail> {
    let disk = rose(rt.alloc())?;
    let mut room = [1; 4];
    assert_eq!(rt;
        read_file(disk.as_slice(), ROSE, &mut room[0..2]),
        Done::Short(3)
    );
    assert_eq!(rt; room, [1, 1, 1, 1]);
    assert_eq!(rt;
        read_file(disk.as_slice(), b"LEAF       ", &mut room),
        Done::Absent
    );
    assert_eq!(rt; room, [1, 1, 1, 1]);
    assert_eq!(rt; read_file(disk.as_slice(), ROSE, &mut room), Done::Read(3));
    assert_eq!(rt; room, [7, 7, 7, 1]);
    Ok(())
}

#[test]
fn refusals_in_their_order(rt: HostRuntime) -> Result<(), Fail> {
    let disk = rose(rt.alloc())?;
    let mut room = [1; 4];
    assert_eq!(rt;
        read_file(disk.as_slice(), b"ROSE", &mut room),
        Done::Refused(Refusal::BadName)
    );
    assert_eq!(rt;
        read_file(b"no disk", b"ROSE", &mut room),
        Done::Refused(Refusal::Unsound)
    );
    assert_eq!(rt; room, [1, 1, 1, 1]);
    assert!(rt; entry_of(b"no disk", ROSE).is_empty());
    assert!(rt; entry_of(disk.as_slice(), b"ROSE").is_empty());
    assert!(rt; entry_of(disk.as_slice(), b"LEAF       ").is_empty());
    assert_eq!(rt; entry_of(disk.as_slice(), ROSE).get(1..12), Some(&ROSE[..]));
    Ok(())
}
