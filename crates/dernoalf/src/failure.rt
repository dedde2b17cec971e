// What ends the program early, or keeps one command from being done.
use std::alloc::{AllocError, Global};
use std::error::Error;
use std::str::from_utf8;
use std::{fmt, io};
use update::answer::{Done, Refusal};

#[derive(Debug, Drop)]
pub enum Failure {
    Memory,
    // What was wrong, with this file of the system.
    System(String, io::Error),
    // With standard input or output.
    Stream(io::Error),
    // The command was not done: what it answered, and what it printed.
    NotDone(Done, Vec<u8>),
    // The program is not called so.
    Usage,
}

impl From<AllocError> for Failure {
    fn from(_: AllocError) -> Failure {
        Failure::Memory
    }
}

// What came of a call on a file of the system.
pub trait OnFile<T> {
    // The same, with the file's name in the failure.
    fn on_file(self, file: &str, heap: Global) -> Result<T, Failure>;
}

impl<T> OnFile<T> for io::Result<T> {
    fn on_file(self, file: &str, heap: Global) -> Result<T, Failure> {
        self.try_map_err(|error| Ok(Failure::System(String::from_str(heap, file)?, error)))
    }
}

// How the program is called.
pub const USAGE: &str =
    "usage: dernoalf                          commands from standard input, over a disk in memory
       dernoalf IMAGE                    the same, over the image file
       dernoalf IMAGE put NAME FILE      puts the file's bytes under the name
       dernoalf IMAGE read NAME FILE     writes the bytes under the name to the file
       dernoalf IMAGE COMMAND [WORDS]    one command: disk N, list, check, map, unread,
                                         read NAME, entry NAME, away NAME";

// Why a command with this answer was not done.
fn reason(answer: Done) -> &'static str {
    match answer {
        Done::Refused(Refusal::Unsound) => {
            "the disk is not sound, first at this entry, or at 16 for its size"
        }
        Done::Refused(Refusal::BadName) => "the name has more than eleven bytes",
        Done::Refused(Refusal::TooLong) => "the file has more than 1,024 bytes",
        Done::Refused(Refusal::Unreadable) => {
            "this can't be read as a command, or the image is there already"
        }
        Done::Full => "there is no room for the file",
        Done::Absent => "there is no file of this name",
        Done::Finished | Done::Read(_) | Done::Cut | Done::Short(_) => "it was not done",
    }
}

impl fmt::Display for Failure {
    fn fmt<W: fmt::Write>(&self, f: &mut fmt::Formatter<W>) -> fmt::Result {
        match self {
            Failure::Memory => write!(f, "dernoalf: out of memory"),
            Failure::System(file, error) => write!(f, "dernoalf: {file}: {error}"),
            Failure::Stream(error) => write!(f, "dernoalf: {error}"),
            Failure::NotDone(answer, said) => {
                let line = from_utf8(said.as_slice()).unwrap_or("").trim_end();
                write!(f, "dernoalf: {line}: {}", reason(*answer))
            }
            Failure::Usage => write!(f, "{USAGE}"),
        }
    }
}

impl Error for Failure {}
