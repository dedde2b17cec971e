// Files, entries, unread places and blocks of a sound disk, as they are printed.
ghost use Rattle.std.specs.Prelude.{◌≡◌, ℕ, List, ◌++◌, ◌&&◌, position, OnOk, IfOk};
ghost use Rattle.std.specs.declared.ops.Range.{Range};
ghost use Rattle.layout.specs.Entries.{blocks_of};
ghost use Rattle.layout.specs.Files.{entries, file};
ghost use Rattle.fsck.specs.Blocks.{has};
ghost use Rattle.unread.specs.Unread.{unread};
ghost use Rattle.unread.specs.Runs.{Listed};
ghost use Rattle.console.specs.Shown.{shown_number};
ghost use Rattle.session.specs.Printed.{pair_line, file_line, files_from, read_text, entry_text, shown_ranges, block_char, map_text};
ghost use Rattle.session.specs.Answered.{read_answer, entry_answer};

use console::show::{push_bytes, push_name, push_number};
use fsck::sound_disk::SoundDisk;
use layout::disk::Disk;
use layout::entry::Entry;
use layout::name::Name;
use reader::read::{entry_of, read_file};
use std::alloc::AllocError;
use unread::runs::Runs;
use update::answer::Done;

// How many blocks the map has to a line.
const MAP_LINE: usize = 0x40;

// The name of a file and its length.
fn push_file_line(out: &mut Vec<u8>, name: &Name, len: usize) -> Result<(), AllocError>
    ensures { OnOk result (out.new.items ≡ out.old.items ++ file_line name.now.bytes len) }
{
    push_name(out, name)?;
    out.extend_from_slice(b" ")?;
    push_number(out, len as u64)?;
    out.extend_from_slice(b"\n")
}

// The files, in the order of entries.
pub(crate) fn push_files(out: &mut Vec<u8>, disk: SoundDisk<'_>) -> Result<(), AllocError>
    ensures { OnOk result (out.new.items ≡ out.old.items ++ files_from disk.entry.bytes.now 0 16) }
{
    for part in disk.table() {
        let entry = Entry::decode(part);
        if entry.used {
            push_file_line(out, &entry.name, usize::from(entry.len))?;
        }
    }
    Ok(())
}

// The file under the name, and how many bytes it has; or that there is none.
pub(crate) fn push_file(
    out: &mut Vec<u8>,
    disk: SoundDisk<'_>,
    name: &Name,
) -> Result<Done, AllocError>
    ensures text { OnOk result (out.new.items ≡ out.old.items ++ read_text name.now.bytes (file disk.entry.bytes.now name.now.bytes)) }
    ensures answer { IfOk result (λ done. done ≡ read_answer (file disk.entry.bytes.now name.now.bytes)) }
{
    let mut room = [0; Disk::LONGEST];
    let answer = read_file(disk.bytes(), &name.bytes, &mut room);
    match answer {
        Done::Read(len) => {
            push_file_line(out, name, len)?;
            push_bytes(out, &room[0..len])?;
        }
        _ => out.extend_from_slice(b"none\n")?,
    }
    Ok(answer)
}

// The bytes of the entry of the name; or that there is none.
pub(crate) fn push_entry(
    out: &mut Vec<u8>,
    disk: SoundDisk<'_>,
    name: &Name,
) -> Result<Done, AllocError>
    ensures text { OnOk result (out.new.items ≡ out.old.items ++ entry_text disk.entry.bytes.now name.now.bytes) }
    ensures answer { IfOk result (λ done. done ≡ entry_answer disk.entry.bytes.now name.now.bytes) }
{
    let entry = entry_of(disk.bytes(), &name.bytes);
    if entry.is_empty() {
        out.extend_from_slice(b"none\n")?;
        return Ok(Done::Absent);
    }
    push_bytes(out, entry)?;
    Ok(Done::Finished)
}

// A line of two numbers.
fn push_pair(out: &mut Vec<u8>, first: usize, last: usize) -> Result<(), AllocError>
    ensures { OnOk result (out.new.items ≡ out.old.items ++ pair_line (shown_number first) (shown_number last)) }
{
    push_number(out, first as u64)?;
    out.extend_from_slice(b" ")?;
    push_number(out, last as u64)?;
    out.extend_from_slice(b"\n")
}

// A line with the first and the last place of each run of unread places.
pub(crate) fn push_unread(out: &mut Vec<u8>, disk: SoundDisk<'_>) -> Result<(), AllocError>
    ensures { OnOk result ((rs : List (Range _)) × Listed (unread disk.entry.bytes.now) 0 rs × (out.new.items ≡ out.old.items ++ shown_ranges rs)) }
{
    for run in Runs::of(disk) {
        push_pair(out, run.start, run.end.saturating_sub(1))?;
    }
    Ok(())
}

// The place of the first of these entries whose file has the block.
fn owner(entries: &[Entry], block: u8) -> Option<usize>
    ensures { result ≡ position (λ e. e.used && has (blocks_of e) block) entries.now }
{
    entries
        .iter()
        .position(|entry| entry.used && entry.file_blocks().contains(&block))
}

// The character of a block of the disk that has these entries: `#` for the first eight, which hold the entries, a letter for one of a file, a dot for a free one.
fn block_char(all: &[Entry; Disk::ENTRIES], block: u8) -> u8
    ensures { (d : List ℕ) → all.now ≡ entries d → result ≡ block_char d block }
{
    if usize::from(block) < Disk::ENTRY_BLOCKS {
        return b'#';
    }
    match owner(all, block) {
        Some(i) => b'a' + i as u8,
        None => b'.',
    }
}

// A character for each block.
pub(crate) fn push_map(out: &mut Vec<u8>, disk: SoundDisk<'_>) -> Result<(), AllocError>
    ensures { OnOk result (out.new.items ≡ out.old.items ++ map_text disk.entry.bytes.now) }
{
    let entries = disk.entries();
    let blocks = disk.blocks();
    for block in 0..blocks {
        out.push(block_char(&entries, block as u8))?;
        if block % MAP_LINE == MAP_LINE - 1 || block + 1 == blocks {
            out.push(b'\n')?;
        }
    }
    Ok(())
}
