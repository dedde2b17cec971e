// A disk in a file of the system.
use crate::failure::{Failure, OnFile};
use layout::disk::Disk;
use std::alloc::Global;
use std::fs::{File, OpenOptions};
use std::io::{ErrorKind, Read, Seek, SeekFrom, Write};
use std::{fs, io};
use update::write;

// The name of the file, and the file, once it was opened for writing.
#[derive(Drop)]
pub struct Image {
    path: String,
    file: Option<File>,
}

// One byte more than the largest disk has, so that a larger file is seen to be one.
const ROOM: usize = Disk::MOST * Disk::BLOCK + 1;

// The bytes of the file, up to the room for them.
fn read_bytes(file: File, heap: Global) -> io::Result<Vec<u8>> {
    let mut bytes = Vec::new(heap);
    file.take(ROOM as u64).read_to_end(&mut bytes)?;
    Ok(bytes)
}

// Writes these bytes at this place, and waits until they are kept.
fn write_at(file: &mut File, at: u64, bytes: &[u8]) -> io::Result<()> {
    file.seek(SeekFrom::Start(at))?;
    file.write_all(bytes)?;
    file.sync_all()
}

// A file with these bytes, made under the name beside it and then renamed, so that it is there whole or not at all.
fn make_file(rt: &HostRuntime, beside: &str, path: &str, bytes: &[u8]) -> io::Result<File> {
    let mut file = File::create(rt, beside)?;
    write_at(&mut file, 0, bytes)?;
    fs::rename(rt, beside, path)?;
    Ok(file)
}

// Makes the writes, one after the other, each kept before the next begins.
fn make_writes(file: &mut File, writes: &[write::Write]) -> io::Result<()> {
    for write in writes {
        let at = (write.to as u64).saturating_mul(Disk::BLOCK as u64);
        write_at(file, at, &write.bytes)?;
    }
    Ok(())
}

impl Image {
    // The image under this name, and the bytes that it has: none where there is no such file.
    pub fn open(rt: &HostRuntime, path: String) -> Result<(Image, Vec<u8>), Failure> {
        let heap = rt.alloc();
        let read = match File::open(rt, path.as_str()) {
            Ok(file) => read_bytes(file, heap),
            Err(error) if error.kind() == ErrorKind::NotFound => Ok(Vec::new(heap)),
            Err(error) => Err(error),
        };
        let bytes = read.on_file(path.as_str(), heap)?;
        Ok((Image { path, file: None }, bytes))
    }

    // Makes the file, with these bytes.
    pub fn make(&mut self, rt: &HostRuntime, bytes: &[u8]) -> Result<(), Failure> {
        let path = self.path.as_str();
        let beside = format!(in rt.alloc(); "{path}.new")?;
        let file = make_file(rt, beside.as_str(), path, bytes).on_file(path, rt.alloc())?;
        self.file = Some(file);
        Ok(())
    }

    // The same writes on the file. It is opened for writing by the first of them, so that it can be read by whoever may only read it.
    pub fn write(&mut self, rt: &HostRuntime, writes: &[write::Write]) -> Result<(), Failure> {
        if writes.is_empty() {
            return Ok(());
        }
        let path = self.path.as_str();
        let heap = rt.alloc();
        let file = self.file.get_or_try_insert_with(|| {
            let opened = OpenOptions::new().write(true).open(rt, path);
            opened.on_file(path, heap)
        })?;
        make_writes(file, writes).on_file(path, heap)
    }
}
