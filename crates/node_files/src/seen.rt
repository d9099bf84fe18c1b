//! The file `node-K.seen`: how many changes the file of a node has at least.
ghost use Rattle.std.specs.Prelude.{◌≡◌};

use crate::terms::{number_behind, with_checksum, without_checksum};
use file_keep::Witness;
use scope::Steps;
use std::alloc::{AllocError, Global};
use std::fs::{File, OpenOptions};
use std::os::unix::fs::FileExt;
use std::rt::HostRuntime;
use std::{fs, io};

/// The witness of a node in a file of fixed length, which is overwritten in place. It is synced
/// when it is made, and not afterwards: it may lag behind.
#[derive(Drop)]
pub struct Seen {
    alloc: Global,
    file: File,
    id: u64,
    node: u8,
    count: u64,
    /// The number of failed notes, which only contracts see.
    failures: Steps,
}

/// Why a witness is not opened.
#[derive(Drop)]
pub(crate) enum SeenFault {
    Io(io::Error),
    /// Its checksum fails, or it is that of another folder or node.
    Damaged,
    Memory,
}

impl From<AllocError> for SeenFault {
    fn from(_error: AllocError) -> SeenFault {
        SeenFault::Memory
    }
}

impl From<io::Error> for SeenFault {
    fn from(error: io::Error) -> SeenFault {
        SeenFault::Io(error)
    }
}

impl Seen {
    /// Makes the witness of a new node, and syncs it.
    pub(crate) fn create(
        rt: &HostRuntime,
        path: &str,
        id: u64,
        node: u8,
    ) -> Result<Seen, SeenFault> {
        let alloc = rt.alloc();
        let file = OpenOptions::new()
            .read(true)
            .write(true)
            .create(true)
            .truncate(true)
            .open(rt, path)?;
        let seen = Seen {
            alloc,
            file,
            id,
            node,
            count: 0,
            failures: Steps::new(),
        };
        seen.write(0)?;
        seen.file.sync_all()?;
        Ok(seen)
    }

    /// Opens the witness of a node.
    pub(crate) fn open(rt: &HostRuntime, path: &str, id: u64, node: u8) -> Result<Seen, SeenFault> {
        let alloc = rt.alloc();
        let found = fs::read(rt, path)?;
        let Ok(text) = str::from_utf8(found.as_slice()) else {
            return Err(SeenFault::Damaged);
        };
        let Some(count) = count_in(alloc, text, id, node)? else {
            return Err(SeenFault::Damaged);
        };
        let file = OpenOptions::new().read(true).write(true).open(rt, path)?;
        Ok(Seen {
            alloc,
            file,
            id,
            node,
            count,
            failures: Steps::new(),
        })
    }

    /// Writes a number of changes over the one that is there.
    fn write(&self, changes: u64) -> Result<(), SeenFault> {
        let text = seen_text(self.alloc, self.id, self.node, changes)?;
        let written = self.file.write_at(text.as_bytes(), 0)?;
        if written == text.len() {
            Ok(())
        } else {
            Err(SeenFault::Damaged)
        }
    }
}

/// Returns the text of a witness, whose length is always the same.
fn seen_text(alloc: Global, id: u64, node: u8, changes: u64) -> Result<String, AllocError> {
    let lines = format!(in alloc;
        "mmlib seen 1\nid {id:016x}\nnode {node:03}\nchanges {changes:020}\n"
    )?;
    with_checksum(alloc, lines.as_str())
}

/// Returns the number of changes that the text of this node's witness tells.
fn count_in(alloc: Global, text: &str, id: u64, node: u8) -> Result<Option<u64>, AllocError> {
    let Some(lines) = without_checksum(alloc, text)? else {
        return Ok(None);
    };
    let Some(count) = number_behind(lines, "changes ") else {
        return Ok(None);
    };
    if seen_text(alloc, id, node, count)?.as_str() == text {
        Ok(Some(count))
    } else {
        Ok(None)
    }
}

impl Witness for Seen {
    ghost noted = { λ w. w.count };

    ghost failed_notes = { λ w. w.failures.count };

    fn count(&self) -> u64 {
        self.count
    }

    fn note(&mut self, changes: u64) {
        match self.write(changes) {
            Ok(()) => self.count = changes,
            Err(_) => self.failures.tick(),
        }
    }
}
