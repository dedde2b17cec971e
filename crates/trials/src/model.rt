// The files that a disk should have, by name: a map that knows nothing of entries, and of blocks only how many there are.
use crate::change::Change;
use crate::machine::LONGEST;
use std::alloc::{AllocError, Global};
use std::collections::BTreeMap;
use update::answer::{Done, Refusal};

// A file's name: eleven bytes, whatever they are.
pub type Name = [u8; 11];

// The most files of a disk.
const MOST: usize = 16;

#[derive(Drop)]
pub struct Model {
    pub files: BTreeMap<Name, Vec<u8>>,
    // The blocks for files, free or not.
    blocks: usize,
}

fn blocks_of(content: &[u8]) -> usize {
    content.len().div_ceil(64)
}

impl Model {
    // No files, and so many blocks for them.
    pub fn new(heap: Global, blocks: usize) -> Model {
        Model {
            files: BTreeMap::new(heap),
            blocks,
        }
    }

    pub fn len(&self) -> usize {
        self.files.len()
    }

    pub fn nth_name(&self, n: usize) -> Option<&Name> {
        self.files.keys().nth(n)
    }

    // The file under these eleven bytes.
    pub fn file(&self, name: &Name) -> Option<&[u8]> {
        self.files.get(name).map(|content| content.as_slice())
    }

    // How many blocks are free.
    pub fn free(&self) -> usize {
        self.files
            .values()
            .map(|content| blocks_of(content.as_slice()))
            .fold(self.blocks, usize::saturating_sub)
    }

    // How many writes the change makes; or the answer, where it is not begun.
    pub fn writes(&self, change: &Change) -> Result<u64, Done> {
        let name = Name::try_from(change.name()).or(Err(Refusal::BadName))?;
        let there = self.files.contains_key(&name);
        match change {
            Change::Away { .. } => Ok(u64::from(there)),
            Change::Put { content, .. } => {
                if content.len() > LONGEST {
                    return Err(Refusal::TooLong.into());
                }
                let needed = blocks_of(content.as_slice());
                if needed > self.free() || !there && self.len() >= MOST {
                    return Err(Done::Full);
                }
                Ok((needed as u64).saturating_add(1))
            }
        }
    }

    // Makes the change, and gives the file that was there under its name.
    pub fn make(&mut self, heap: Global, change: &Change) -> Result<Option<Vec<u8>>, AllocError> {
        let Ok(name) = Name::try_from(change.name()) else {
            return Ok(None);
        };
        match change {
            Change::Away { .. } => Ok(self.files.remove(&name)),
            Change::Put { content, .. } => {
                let own = content.as_slice().to_vec(heap)?;
                Ok(self.files.insert(name, own)?)
            }
        }
    }

    // Takes the change back: what was there before is there again.
    pub fn undo(&mut self, change: &Change, before: Option<Vec<u8>>) -> Result<(), AllocError> {
        let Ok(name) = Name::try_from(change.name()) else {
            return Ok(());
        };
        match before {
            Some(content) => {
                self.files.insert(name, content)?;
            }
            None => {
                self.files.remove(&name);
            }
        }
        Ok(())
    }
}
