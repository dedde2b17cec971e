// A command text, read command by command.
ghost use Rattle.std.specs.Prelude.{◌≡◌, ◌+◌, ◌^◌, ◌<◌, ◌∷◌, length, IfOk, vec_items};
ghost use Rattle.console.specs.Commands.{passed_over, verb_of, clean_lines, BodyRead, CommandRead};
ghost use Rattle.console.specs.Parsed.{items_or_line};

use crate::bytes::parse_bytes;
use crate::command::Command;
use crate::line::{Line, Unreadable};
use crate::verb::Verb;
use crate::words::{split_line, split_word, trim};
use std::alloc::{AllocError, Global};
use update::answer::Refusal;

// The text that is still to be read, and how many lines were read before it.
#[derive(Drop)]
pub struct Script<'a> {
    text: &'a [u8],
    line: usize,
    ghost counted: { line + length text.now < 2 ^ 64 },
}

// Whether a line is blank or a comment.
fn is_passed_over(line: &[u8]) -> bool
    ensures { result ≡ passed_over line.now }
{
    matches!(line, [] | [b'#', ..])
}

// The command's word that a line begins with.
fn verb_of(line: &[u8]) -> Option<Verb>
    ensures { result ≡ verb_of line.now }
{
    let (word, _) = split_word(line);
    Verb::of(word)
}

// The first line of a text, without what ends it and the blanks around it, and the text behind it.
#[tactic(auto, using(crate::proofs::LinesRead::clean_lines_first))]
fn first_line(text: &[u8]) -> (&[u8], &[u8])
    requires { 0 < length text.now }
    ensures lines { clean_lines text.now ≡ result.0.now ∷ clean_lines result.1.now }
    ensures shorter { length result.1.now < length text.now }
{
    let (line, behind) = split_line(text);
    (trim(line), behind)
}

impl<'a> Script<'a> {
    pub fn new(text: &'a [u8]) -> Script<'a>
        ensures { (result.text ≡ text.entry) × (result.line ≡ 0) }
    {
        Script { text, line: 0 }
    }

    // The bytes up to the next line that begins with a command's word; or the first line that is no line of bytes. A result in a result: the body is read to its end before anything is made of it, so the inner one is a value.
    fn parse_body(&mut self, heap: Global) -> Result<Result<Vec<u8>, Unreadable>, AllocError>
        ensures { IfOk result (λ b. BodyRead self.old.line self.old.text.now (items_or_line vec_items b) self.new.line self.new.text.now) }
    {
        let mut body = Ok(Vec::new(heap));
        // No loop over lines that are taken, as below: here a line is looked at before it is.
        while !self.text.is_empty() {
            let (line, behind) = first_line(self.text);
            if !is_passed_over(line) {
                if verb_of(line).is_some() {
                    break;
                }
                if let Ok(bytes) = &mut body {
                    match parse_bytes(heap, line)? {
                        Some(more) => bytes.extend_from_slice(more.as_slice())?,
                        None => body = Err(Unreadable { line: self.line }),
                    }
                }
            }
            self.text = behind;
            self.line += 1;
        }
        Ok(body)
    }

    // The next command, or nothing at the end.
    #[tactic(auto, using(crate::proofs::Commands::asks_passed, crate::proofs::Commands::asks_no_verb, crate::proofs::Commands::asks_nothing))]
    pub fn next_command(&mut self, heap: Global) -> Result<Option<Command>, AllocError>
        ensures { IfOk result (λ c. CommandRead self.old.line self.old.text.now c self.new.line self.new.text.now) }
    {
        while !self.text.is_empty() {
            let number = self.line;
            let (line, behind) = first_line(self.text);
            self.text = behind;
            self.line += 1;
            if is_passed_over(line) {
                continue;
            }
            let (word, rest) = split_word(line);
            let Some(verb) = Verb::of(word) else {
                return Ok(Some(Command::Bad {
                    verb: None,
                    why: Refusal::Unreadable,
                    place: number,
                }));
            };
            // Only a put has a body, and only for a put is it looked at.
            let body = match verb {
                Verb::Put => self.parse_body(heap)?,
                _ => Ok(Vec::new(heap)),
            };
            let line = Line { verb, number, rest };
            return Ok(Some(line.command(heap, body)?));
        }
        Ok(None)
    }
}
