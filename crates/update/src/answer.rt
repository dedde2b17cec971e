// What a request answers, and why it is refused.
ghost use Rattle.std.specs.Prelude.{◌≡◌};
ghost use Rattle.update.specs.declared.answer.Refusal.TheVariants.{Unsound, BadName};
ghost use Rattle.update.specs.declared.answer.Done.TheVariants.{Short, Refused};
ghost use Rattle.update.specs.Answers.{number, value};

use fsck::fault::Fault;
use layout::disk::RoomTooShort;
use layout::name::WrongLength;

// Why a request is refused. More reasons come at the end of the list.
#[derive(Debug, Clone, Copy, PartialEq, Eq)]
pub enum Refusal {
    // The disk isn't sound.
    Unsound = 1,
    // The name isn't eleven bytes.
    BadName,
    // The file has more than 1,024 bytes.
    TooLong,
    // The text can't be read.
    Unreadable,
}

impl Refusal {
    // The number under which the refusal is known. A name, and no `From`, says which number it is.
    pub fn number(self) -> usize
        ensures { result ≡ number self }
    {
        self as usize
    }
}

impl From<Fault> for Refusal {
    ghost from_gives = { λ _ refusal. refusal ≡ Unsound };

    fn from(_fault: Fault) -> Refusal {
        Refusal::Unsound
    }
}

impl From<WrongLength> for Refusal {
    ghost from_gives = { λ _ refusal. refusal ≡ BadName };

    fn from(_wrong: WrongLength) -> Refusal {
        Refusal::BadName
    }
}

// What a request answers: one list for all of them, as the rules of the project ask, and so no Result.
#[derive(Debug, Clone, Copy, PartialEq, Eq)]
pub enum Done {
    // All writes were made.
    Finished,
    // Power failed before the last write.
    Cut,
    // The disk was too full to begin.
    Full,
    // The file's bytes are in the room: so many.
    Read(usize),
    // There is no such file.
    Absent,
    // The room is too short for the file, which has so many bytes.
    Short(usize),
    Refused(Refusal),
}

impl From<RoomTooShort> for Done {
    ghost from_gives = { λ room done. done ≡ Short room.needed };

    fn from(room: RoomTooShort) -> Done {
        Done::Short(room.needed)
    }
}

impl From<Refusal> for Done {
    ghost from_gives = { λ refusal done. done ≡ Refused refusal };

    fn from(refusal: Refusal) -> Done {
        Done::Refused(refusal)
    }
}

impl Done {
    // The number that goes with the answer: a length, or a refusal's number. A name, and no `From`, says which.
    pub fn value(self) -> usize
        ensures { result ≡ value self }
    {
        match self {
            Done::Read(len) | Done::Short(len) => len,
            Done::Refused(refusal) => refusal.number(),
            Done::Finished | Done::Cut | Done::Full | Done::Absent => 0,
        }
    }
}
