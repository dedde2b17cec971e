// The words that commands begin with.
ghost use Rattle.std.specs.Prelude.{◌≡◌};
ghost use Rattle.console.specs.Verbs.{verb};

#[derive(Clone, Copy, Debug, PartialEq, Eq)]
pub enum Verb {
    Away,
    Check,
    Disk,
    Entry,
    List,
    Map,
    Power,
    Put,
    Read,
    Unread,
}

impl Verb {
    // The command that begins with the word. It is no `TryFrom`: another word is no error, but perhaps a line of bytes.
    pub fn of(word: &[u8]) -> Option<Verb>
        ensures { result ≡ verb word.now }
    {
        match word {
            b"away" => Some(Verb::Away),
            b"check" => Some(Verb::Check),
            b"disk" => Some(Verb::Disk),
            b"entry" => Some(Verb::Entry),
            b"list" => Some(Verb::List),
            b"map" => Some(Verb::Map),
            b"power" => Some(Verb::Power),
            b"put" => Some(Verb::Put),
            b"read" => Some(Verb::Read),
            b"unread" => Some(Verb::Unread),
            _ => None,
        }
    }
}
