//! A folder that files are written into.
ghost use Rattle.std.specs.Prelude.{ℕ, List, OnOk, ⊤};

use std::alloc::AllocError;
use std::io;

/// Why a folder cannot be opened or a file cannot be written.
#[derive(Debug, Drop, PartialEq, Eq)]
pub enum FolderFault {
    /// An allocation failed.
    Memory,
    /// The folder or the file cannot be created or written.
    Refused,
    /// A file that a run left unfinished when it was ended is in the way.
    Unfinished,
}

impl From<AllocError> for FolderFault {
    fn from(_error: AllocError) -> FolderFault {
        FolderFault::Memory
    }
}

impl From<io::Error> for FolderFault {
    fn from(error: io::Error) -> FolderFault {
        match error.kind() {
            io::ErrorKind::OutOfMemory => FolderFault::Memory,
            _ => FolderFault::Refused,
        }
    }
}

/// A folder that files are written into.
pub trait Folder {
    /// Relates the folder before a file is written, the name and the bytes of the file, and the
    /// folder after it. The default says nothing.
    ghost writes: { Self → List ℕ → List ℕ → Self → Type 0 } = { λ _ _ _ _. ⊤ };

    /// Opens the folder at a path, into which later calls write. A folder of the file system is
    /// created if it does not exist.
    ///
    /// Errors: `Memory`; `Refused` if the path is not a folder, or the folder cannot be created.
    fn open(&mut self, path: &str) -> Result<(), FolderFault>;

    /// Writes a file with this name and these bytes into the folder. A folder of the file system
    /// replaces a file of that name; a folder in memory keeps both.
    ///
    /// Errors: `Memory`, `Refused`, `Unfinished`. After an error no file of that name holds only a
    /// part of these bytes. Cost: the number of bytes.
    fn write(&mut self, name: &str, bytes: &[u8]) -> Result<(), FolderFault>
        ensures { OnOk result (writes self.old name.now bytes.now self.new) };
}
