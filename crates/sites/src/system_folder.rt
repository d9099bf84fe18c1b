//! A folder of the file system.
ghost use Rattle.std.specs.Prelude.{◌≡◌, ◌++◌, codes, string_bytes, IfOk};

use crate::folder::{Folder, FolderFault};
use std::alloc::AllocError;
use std::fs::{self, File};
use std::io::{self, Write};
use std::rt::Files;

/// The name of a file that is not complete yet. It has no extension, so no page has this name.
const UNFINISHED: &str = "+unfinished";

/// A folder of the file system. A file is written under the name `+unfinished`, and renamed once it
/// is complete; a link of that name is not followed.
#[derive(Drop)]
pub struct SystemFolder<'a, R> {
    rt: &'a R,
    path: String,
}

impl<'a, R: Files + AllocGlobal> SystemFolder<'a, R> {
    /// Returns a folder that is not open yet: call `open` before `write`. Does not allocate.
    pub fn new(rt: &'a R) -> SystemFolder<'a, R> {
        SystemFolder {
            rt,
            path: String::new(rt.alloc()),
        }
    }

    /// Returns the path of the file with this name.
    fn path_of(&self, name: &str) -> Result<String, AllocError>
        ensures { IfOk result (λ path. string_bytes path
            ≡ string_bytes self.now.path ++ codes "/" ++ name.now) }
    {
        let mut path = String::new(self.rt.alloc());
        path.push_str(self.path.as_str())?;
        path.push_str("/")?;
        path.push_str(name)?;
        Ok(path)
    }

    /// Writes the bytes into the unfinished file, and renames it to `path`.
    fn write_then_rename(
        &self,
        mut file: R::File,
        unfinished: &str,
        path: &str,
        bytes: &[u8],
    ) -> Result<(), FolderFault> {
        file.write_all(bytes)?;
        Ok(fs::rename(self.rt, unfinished, path)?)
    }
}

impl<'a, R: Files + AllocGlobal> Folder for SystemFolder<'a, R> {
    fn open(&mut self, path: &str) -> Result<(), FolderFault> {
        self.path = String::from_str(self.rt.alloc(), path)?;
        match fs::metadata(self.rt, path) {
            Ok(found) if found.is_dir() => Ok(()),
            Ok(_) => Err(FolderFault::Refused),
            Err(_) => Ok(fs::create_dir_all(self.rt, path)?),
        }
    }

    fn write(&mut self, name: &str, bytes: &[u8]) -> Result<(), FolderFault> {
        let unfinished = self.path_of(UNFINISHED)?;
        let path = self.path_of(name)?;
        let file = match File::create_new(self.rt, unfinished.as_str()) {
            Ok(file) => file,
            Err(error) if error.kind() == io::ErrorKind::AlreadyExists => {
                return Err(FolderFault::Unfinished);
            }
            Err(error) => return Err(FolderFault::from(error)),
        };
        let written = self.write_then_rename(file, unfinished.as_str(), path.as_str(), bytes);
        if written.is_err() {
            let _ = fs::remove_file(self.rt, unfinished.as_str());
        }
        written
    }
}
