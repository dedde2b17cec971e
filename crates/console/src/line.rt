// A line of the command text that begins with a command's word, and what it asks.
ghost use Rattle.std.specs.Prelude.{◌≡◌, IfOk, vec_items};
ghost use Rattle.std.specs.Option.{ok_or};
ghost use Rattle.console.specs.Numbers.{decimal};
ghost use Rattle.console.specs.Commands.{said, name_of, alone, asks};
ghost use Rattle.console.specs.Parsed.{items_or_line, NameRead, LineAsks};
ghost use Rattle.console.specs.declared.line.LineError.TheVariants as error;

use crate::command::{Command, Question};
use crate::escape::{NameTooLong, fill_name, unescape};
use crate::number::parse_decimal;
use crate::verb::Verb;
use layout::name::Name;
use std::alloc::{AllocError, Global};
use update::answer::Refusal;

// This line can't be read.
#[derive(Clone, Copy, Debug, PartialEq, Eq)]
pub(crate) struct Unreadable {
    pub(crate) line: usize,
}

// Why there is no command of a line.
#[derive(Clone, Copy, Debug, PartialEq, Eq)]
pub(crate) enum LineError {
    Text(Unreadable),
    Name(NameTooLong),
    Memory(AllocError),
}

impl From<Unreadable> for LineError {
    ghost from_gives = { λ e made. made ≡ error.Text e };

    fn from(e: Unreadable) -> LineError {
        LineError::Text(e)
    }
}

impl From<NameTooLong> for LineError {
    ghost from_gives = { λ e made. made ≡ error.Name e };

    fn from(e: NameTooLong) -> LineError {
        LineError::Name(e)
    }
}

impl From<AllocError> for LineError {
    ghost from_gives = { λ e made. made ≡ error.Memory e };

    fn from(e: AllocError) -> LineError {
        LineError::Memory(e)
    }
}

// The command's word that a line begins with, the line's number, and what stands behind the word.
#[derive(Clone, Copy)]
pub(crate) struct Line<'a> {
    pub(crate) verb: Verb,
    pub(crate) number: usize,
    pub(crate) rest: &'a [u8],
}

impl Line<'_> {
    fn unreadable(&self) -> Unreadable
        ensures { result.line ≡ self.now.number }
    {
        Unreadable { line: self.number }
    }

    // The command, if it is alone on the line.
    fn alone(&self, command: Command) -> Result<Command, LineError>
        ensures { LineAsks self.now.verb result (alone self.now.verb (said command) self.now.number self.now.rest.now) }
    {
        if !self.rest.is_empty() {
            return Err(self.unreadable().into());
        }
        Ok(command)
    }

    // The number behind the word.
    fn decimal(&self) -> Result<u64, Unreadable>
        ensures { result ≡ ok_or (decimal self.now.rest.now) (record { line = self.now.number }) }
    {
        parse_decimal(self.rest).ok_or(self.unreadable())
    }

    // The name that is spelled behind the word.
    fn name(&self, heap: Global) -> Result<Name, LineError>
        ensures { NameRead self.now.verb result (name_of self.now.verb self.now.number self.now.rest.now) }
    {
        if self.rest.is_empty() {
            return Err(self.unreadable().into());
        }
        let bytes = unescape(heap, self.rest)?.ok_or(self.unreadable())?;
        Ok(fill_name(bytes.as_slice())?)
    }

    // What the line asks, with this body behind it if it is a put.
    fn parse(&self, heap: Global, body: Result<Vec<u8>, Unreadable>) -> Result<Command, LineError>
        ensures { LineAsks self.now.verb result (asks self.now.verb self.now.number self.now.rest.now (items_or_line vec_items body)) }
    {
        match self.verb {
            Verb::Check => self.alone(Command::Ask(Question::Check)),
            Verb::List => self.alone(Command::Ask(Question::List)),
            Verb::Map => self.alone(Command::Ask(Question::Map)),
            Verb::Unread => self.alone(Command::Ask(Question::Unread)),
            Verb::Disk => Ok(Command::Disk {
                blocks: self.decimal()?,
                line: self.number,
            }),
            Verb::Power => Ok(Command::Power(self.decimal()?)),
            Verb::Away => Ok(Command::Away(self.name(heap)?)),
            Verb::Entry => Ok(Command::Ask(Question::Entry(self.name(heap)?))),
            Verb::Read => Ok(Command::Ask(Question::Read(self.name(heap)?))),
            Verb::Put => Ok(Command::Put(self.name(heap)?, body?)),
        }
    }

    // The same, where a line that can't be obeyed is a command too.
    pub(crate) fn command(
        &self,
        heap: Global,
        body: Result<Vec<u8>, Unreadable>,
    ) -> Result<Command, AllocError>
        ensures { IfOk result (λ c. said c ≡ asks self.now.verb self.now.number self.now.rest.now (items_or_line vec_items body)) }
    {
        let (why, place) = match self.parse(heap, body) {
            Ok(command) => return Ok(command),
            Err(LineError::Text(e)) => (Refusal::Unreadable, e.line),
            Err(LineError::Name(e)) => (Refusal::BadName, e.len),
            Err(LineError::Memory(e)) => return Err(e),
        };
        Ok(Command::Bad {
            verb: Some(self.verb),
            why,
            place,
        })
    }
}
