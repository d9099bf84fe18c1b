//! A folder in memory.
ghost use Rattle.std.specs.Prelude.{◌≡◌, ◌++◌, ◌∷◌, [], OnOk};
ghost use Rattle.sites.specs.Written.{files_of};

use crate::folder::{Folder, FolderFault};
use std::alloc::{AllocError, Global};

/// A file that was written.
#[derive(Drop)]
pub struct WrittenFile {
    pub name: String,
    pub bytes: Vec<u8>,
}

/// A folder in memory: the files that were written, in order.
#[derive(Drop)]
pub struct MemoryFolder {
    alloc: Global,
    pub files: Vec<WrittenFile>,
}

impl MemoryFolder {
    /// Returns a folder without files. Does not allocate.
    pub fn new(alloc: Global) -> MemoryFolder
        ensures { result.files.items ≡ [] }
    {
        MemoryFolder {
            alloc,
            files: Vec::new(alloc),
        }
    }
}

impl Folder for MemoryFolder {
    ghost writes = { λ old name bytes new. files_of new.files.items ≡ files_of old.files.items ++ (name, bytes) ∷ [] };

    fn open(&mut self, _path: &str) -> Result<(), FolderFault> {
        Ok(())
    }

    fn write(&mut self, name: &str, bytes: &[u8]) -> Result<(), FolderFault>
        ensures { OnOk result
            (files_of self.new.files.items ≡ files_of self.old.files.items ++ (name.now, bytes.now) ∷ []) }
    {
        let file = WrittenFile {
            name: String::from_str(self.alloc, name)?,
            bytes: Vec::from_slice(self.alloc, bytes)?,
        };
        self.files.push(file).map_err(AllocError::from)?;
        Ok(())
    }
}
