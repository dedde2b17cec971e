// Changes that are asked of a disk, at random.
use crate::model::{Model, Name};
use crate::random::Random;
use std::alloc::{AllocError, Global};
use std::fmt;
use update::request::Request;

// The names that come again and again: more than there are entries, some of them with a byte between them.
pub const NAMES: [Name; 20] = [
    *b"ROSE       ",
    *b"ROSE      \0",
    *b"ROSE      S",
    *b"LOSE       ",
    *b"rose       ",
    *b" ROSE      ",
    *b"LEAF       ",
    *b"TULIP      ",
    *b"PATTERN 001",
    *b"PATTERN 002",
    *b"PATTERN 003",
    *b"PATTERN 004",
    *b"PATTERN 005",
    *b"PATTERN 006",
    *b"           ",
    [0; 11],
    [1; 11],
    [0x7f; 11],
    [0x80; 11],
    [0xff; 11],
];

// Lengths at the edges of blocks, of a file and of what is too long.
const EDGES: [usize; 13] = [0, 1, 63, 64, 65, 127, 128, 129, 960, 961, 1023, 1024, 1025];

// How many of them are short.
const SHORT: usize = 8;

#[derive(Drop)]
pub enum Change {
    Put { name: Vec<u8>, content: Vec<u8> },
    Away { name: Vec<u8> },
}

fn random_name(random: &mut Random, model: &Model, heap: Global) -> Result<Vec<u8>, AllocError> {
    match random.below(20) {
        // Any bytes, and then a number of bytes that no name has.
        0 | 1 => random.bytes(heap, 11),
        2 => {
            let len = [0, 1, 10, 12, 32][random.below(5)];
            random.bytes(heap, len)
        }
        3..=7 => match model.nth_name(random.below(model.len())) {
            Some(name) => name.to_vec(heap),
            None => random.bytes(heap, 11),
        },
        _ => NAMES[random.below(NAMES.len())].to_vec(heap),
    }
}

fn random_len(random: &mut Random) -> usize {
    match random.below(8) {
        0 => random.below(1100),
        1..=4 => EDGES[random.below(SHORT)],
        _ => EDGES[random.below(EDGES.len())],
    }
}

impl Change {
    pub fn random(random: &mut Random, model: &Model, heap: Global) -> Result<Change, AllocError> {
        let name = random_name(random, model, heap)?;
        if random.once_in(4) {
            return Ok(Change::Away { name });
        }
        let len = random_len(random);
        let content = random.bytes(heap, len)?;
        Ok(Change::Put { name, content })
    }

    pub fn name(&self) -> &[u8] {
        match self {
            Change::Put { name, .. } | Change::Away { name } => name.as_slice(),
        }
    }

    // The library's request for it, with power for so many writes.
    pub fn request(&self, lasts: u64) -> Request<'_> {
        match self {
            Change::Put { name, content } => Request::Put {
                name: name.as_slice(),
                content: content.as_slice(),
                lasts,
            },
            Change::Away { name } => Request::Away {
                name: name.as_slice(),
                lasts,
            },
        }
    }
}

impl fmt::Display for Change {
    fn fmt<W: fmt::Write>(&self, f: &mut fmt::Formatter<W>) -> fmt::Result {
        match self {
            Change::Put { name, content } => {
                let len = content.len();
                write!(
                    f,
                    "put \"{}\" of {len} bytes",
                    name.as_slice().escape_ascii()
                )
            }
            Change::Away { name } => write!(f, "away \"{}\"", name.as_slice().escape_ascii()),
        }
    }
}
