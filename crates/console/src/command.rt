// What a line of the command text asks.
use crate::verb::Verb;
use layout::name::Name;
use update::answer::Refusal;

// What is asked about a disk, and changes nothing.
#[derive(Clone, Copy, Debug, PartialEq, Eq)]
pub enum Question {
    Read(Name),
    Entry(Name),
    List,
    Check,
    Unread,
    Map,
}

#[derive(Debug, Drop, PartialEq, Eq)]
pub enum Command {
    // A new disk of so many blocks, asked for on this line.
    Disk {
        blocks: u64,
        line: usize,
    },
    // The next request that writes has power for so many writes.
    Power(u64),
    Put(Name, Vec<u8>),
    Away(Name),
    Ask(Question),
    // A line that can't be obeyed: the command that it begins with, if it begins with one, why, and at which place.
    Bad {
        verb: Option<Verb>,
        why: Refusal,
        place: usize,
    },
}
