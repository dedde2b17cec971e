// What the old machine reads, for whoever asks by name.
ghost use Rattle.update.specs.Answers.{ask_refusal};
ghost use Rattle.reader.specs.Answered.{answer, ReadSays, EntryFound, EntrySays};

use update::admit::admit;
use update::answer::Done;

// Puts the file's bytes into the front of the room; or gives the answer where it doesn't.
fn read(disk: &[u8], name: &[u8], room: &mut [u8]) -> Result<usize, Done>
    ensures { ReadSays (ask_refusal disk.now name.now) disk.now name.now room.old (answer result) room.new }
{
    let (disk, name) = admit(disk, name)?;
    let view = disk.view();
    let entry = view.lookup(&name).ok_or(Done::Absent)?;
    let len = view.copy_file(&entry, room)?;
    Ok(len)
}

// Puts the file's bytes into the front of the room and answers how many they are; or answers how many there are, where the room is too short, or that there is none, and leaves the room as it was.
pub fn read_file(disk: &[u8], name: &[u8], room: &mut [u8]) -> Done
    ensures { ReadSays (ask_refusal disk.now name.now) disk.now name.now room.old result room.new }
{
    match read(disk, name, room) {
        Ok(len) => Done::Read(len),
        Err(done) => done,
    }
}

// The 32 bytes of the name's entry, as a part of the disk; none where there is none, or where the request would be refused.
fn find_entry<'a>(disk: &'a [u8], name: &[u8]) -> Option<&'a [u8]>
    ensures { EntryFound disk.entry name.now result }
{
    let (disk, name) = admit(disk, name).ok()?;
    let view = disk.view();
    let i = view.find(&name)?;
    view.entry_bytes(i)
}

// The same; an empty part in place of none, since a part of the disk is what is asked for.
pub fn entry_of<'a>(disk: &'a [u8], name: &[u8]) -> &'a [u8]
    ensures { EntrySays disk.entry name.now result }
{
    find_entry(disk, name).unwrap_or(&disk[0..0])
}
