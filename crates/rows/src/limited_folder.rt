//! A folder that refuses calls after some number of them.
use sites::{Folder, FolderFault, MemoryFolder};
use std::alloc::Global;

/// A folder in memory that answers a number of calls and refuses all later ones.
#[derive(Drop)]
pub struct LimitedFolder {
    pub folder: MemoryFolder,
    /// How many more calls are answered; `None` if all are.
    calls_left: Option<u64>,
}

impl LimitedFolder {
    /// Returns an empty folder that answers `calls_left` calls, or all for `None`.
    pub fn new(alloc: Global, calls_left: Option<u64>) -> LimitedFolder {
        LimitedFolder {
            folder: MemoryFolder::new(alloc),
            calls_left,
        }
    }

    /// Counts a call. Errors: no calls are left.
    fn count_call(&mut self) -> Result<(), FolderFault> {
        match self.calls_left {
            None => Ok(()),
            Some(0) => Err(FolderFault::Refused),
            Some(calls) => {
                self.calls_left = Some(calls - 1);
                Ok(())
            }
        }
    }
}

impl Folder for LimitedFolder {
    fn open(&mut self, path: &str) -> Result<(), FolderFault> {
        self.count_call()?;
        self.folder.open(path)
    }

    fn write(&mut self, name: &str, bytes: &[u8]) -> Result<(), FolderFault> {
        self.count_call()?;
        self.folder.write(name, bytes)
    }
}
