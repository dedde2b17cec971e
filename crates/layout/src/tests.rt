// The worked values of the format.
use crate::disk::Disk;
use crate::entry::Entry;
use crate::name::Name;
use std::test::Fail;

#[test]
fn blocks_that_files_need(rt: HostRuntime) {
    for (len, blocks) in [
        (0, 0),
        (1, 1),
        (63, 1),
        (64, 1),
        (65, 2),
        (1023, 16),
        (1024, 16),
    ] {
        assert_eq!(rt; Disk::blocks_needed(len), blocks);
    }
}

// A file of 65 bytes in blocks 9 and 8, with junk in the fourteen numbers that it doesn't need.
#[test]
fn junk_in_block_numbers(rt: HostRuntime) -> Result<(), Fail> {
    let mut blocks = [250; Disk::FILE_BLOCKS];
    blocks[0] = 9;
    blocks[1] = 8;
    let name = Name::try_from(&b"ROSE       "[..]).or(Err("eleven bytes"))?;
    let entry = Entry {
        used: true,
        name,
        len: 65,
        blocks,
        unread: [7, 7],
    };
    assert_eq!(rt; entry.file_blocks(), &[9, 8][..]);
    let mut bytes = entry.encode().to_vec(rt.alloc())?;
    bytes.resize(8 * Disk::BLOCK, 0)?;
    bytes.push(5)?;
    bytes.resize(9 * Disk::BLOCK, 0)?;
    bytes.resize(10 * Disk::BLOCK, 3)?;
    let disk = Disk::new(&bytes);
    let mut room = [1; 70];
    let found = disk.lookup(&name).ok_or("a file")?;
    assert_eq!(rt; disk.copy_file(&found, &mut room), Ok(65));
    assert_eq!(rt; room[63], 3);
    assert_eq!(rt; room[64], 5);
    assert_eq!(rt; room[65], 1);
    Ok(())
}
