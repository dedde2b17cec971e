// Changes tried on copies of a disk, with power for every number of their writes.
use crate::change::Change;
use crate::compare::{Difference, changed_blocks, compare, expected};
use crate::machine::Machine;
use crate::model::Model;
use crate::random::Random;
use fsck::judge::first_fault;
use layout::disk::Disk;
use std::alloc::{AllocError, Global};
use std::io;
use std::io::Print;
use unread::runs::unread_runs;
use update::answer::{Done, Refusal};
use update::plan::Plan;
use update::request::perform;

// The sizes of the disks, in blocks.
const SIZES: [usize; 5] = [9, 10, 12, 40, 250];

// How many changes are asked of a disk before the next is begun.
const LIFE: u64 = 100;

// How many differences are printed; the others are counted.
const PRINTED: u64 = 10;

// What was tried.
#[derive(Debug, Clone, Copy, Default)]
pub struct Counts {
    pub requests: u64,
    pub cuts: u64,
    pub files: u64,
    pub damaged: u64,
    pub differences: u64,
}

#[derive(Drop)]
pub struct Trial {
    random: Random,
    disk: Vec<u8>,
    model: Model,
    // Whether every unread place of the disk has junk.
    junk: bool,
    pub counts: Counts,
}

// Makes the bytes those of the other slice.
fn copy(to: &mut Vec<u8>, from: &[u8]) -> Result<(), AllocError> {
    to.clear();
    to.extend_from_slice(from)
}

// Puts junk into every unread place of the disk.
fn spread_junk(random: &mut Random, heap: Global, disk: &mut Vec<u8>) -> Result<(), AllocError> {
    let before = disk.as_slice().to_vec(heap)?;
    let Ok(runs) = unread_runs(before.as_slice()) else {
        return Ok(());
    };
    for run in runs {
        if let Some(part) = disk.as_mut_slice().get_mut(run) {
            random.fill(part);
        }
    }
    Ok(())
}

// Changes one byte of the entries, or the length.
fn damage(random: &mut Random, disk: &mut Vec<u8>) {
    if random.once_in(16) {
        let len = disk.len().saturating_sub(random.below(200));
        disk.truncate(len);
        return;
    }
    let at = random.below(Disk::ENTRY_BLOCKS * Disk::BLOCK);
    let small = random.once_in(2);
    let value = if small {
        random.below(16) as u8
    } else {
        random.byte()
    };
    if let Some(byte) = disk.get_mut(at) {
        *byte = value;
    }
}
