//! The folder of a store.
ghost use Rattle.std.specs.Prelude.{◌≡◌, length, vec_len, All, IfOk, IsSomeAnd, is_some};
ghost use Rattle.sqlite_store.specs.FileStore.{recovers, view};
ghost use Rattle.file_keep.specs.Keeps.{IsDurable};
ghost use Rattle.node_files.specs.Opened.{IsOpened};

use crate::node_file::{FileNodeKeep, NodeFile};
use crate::seen::{Seen, SeenFault};
use crate::terms::{difference, id_in, library_text, terms_in, without_checksum};
use file_keep::{NodeKeep, ValueColumns, Witness};
use keep_folders::{FolderRefusal, FolderTerms, KeepFolder, KeptNode, may_vote};
use sqlite_trees::error::StoreError;
use std::alloc::{AllocError, Global};
use std::fs::{File, OpenOptions, TryLockError};
use std::hash::{BuildHasher, RandomState};
use std::marker::PhantomData;
use std::rt::HostRuntime;
use std::{fs, io};
use synod::{MAX_NODES, Value};

/// The kinds of a node's files, as their names end.
const NODE_FILES: [&str; 3] = ["db", "db-wal", "seen"];

/// An open folder. No other process can open it before it is dropped.
#[derive(Drop)]
struct Folder {
    rt: HostRuntime,
    path: String,
    /// The folder itself, locked.
    lock: File,
    id: u64,
    /// Whether the folder has no library yet.
    is_new: bool,
}

impl Folder {
    /// Opens a folder, or makes it, and compares its file `library` with these terms.
    ///
    /// Errors: the folder cannot be made, opened, locked or written to, or has a library of other
    /// terms. Then nothing is changed.
    fn open(rt: &HostRuntime, path: &str, terms: &FolderTerms) -> Result<Folder, FolderRefusal> {
        make_folder(rt, path)?;
        let lock = lock_folder(rt, path)?;
        let (id, is_new) = match read_text(rt, path, "library")? {
            Some(text) => (compare(rt.alloc(), path, terms, text.as_str())?, false),
            None => (begin_library(rt, path, terms)?, true),
        };
        if !is_new {
            try_to_write(rt, path)?;
        }
        Ok(Folder {
            rt: *rt,
            path: String::from_str(rt.alloc(), path)?,
            lock,
            id,
            is_new,
        })
    }

    /// Opens the keep of each node, in order. A node whose files are damaged or missing gets a keep
    /// of which each call fails. In a new folder the files are made, and then the file `library`.
    ///
    /// Errors: an allocation fails; in a new folder the files cannot be made.
    fn open_nodes<V: Value, C: ValueColumns<V>>(
        &self,
        terms: &FolderTerms,
    ) -> Result<Vec<KeptNode<FileNodeKeep<V, C>>>, FolderRefusal>
        ensures count { IfOk result (λ nodes. vec_len nodes ≡ length terms.now.weights) }
        ensures each { IfOk result (λ nodes. All
            (λ node. IsOpened view recovers C.columns (is_some node.damage) node.keep.keep) nodes.items) }
    {
        let mut nodes = Vec::new(self.rt.alloc());
        for k in 0..terms.weights.count() {
            let node = self.node::<V, C>(k)?;
            self.refuse_damaged_new(&node.damage)?;
            let Ok(()) = nodes.push(node) else {
                return Err(FolderRefusal::Memory);
            };
        }
        self.finish()?;
        Ok(nodes)
    }

    /// Refuses a damaged node in a folder that has no library yet.
    fn refuse_damaged_new(&self, damage: &Option<String>) -> Result<(), FolderRefusal> {
        match damage {
            Some(damage) if self.is_new => Err(FolderRefusal::Line(format!(in self.rt.alloc();
                "{}: no file library, and {damage}",
                self.path
            )?)),
            _ => Ok(()),
        }
    }

    /// Opens the keep of a node.
    fn node<V: Value, C: ValueColumns<V>>(
        &self,
        k: u8,
    ) -> Result<KeptNode<FileNodeKeep<V, C>>, AllocError>
        ensures { IfOk result
            (λ node. IsOpened view recovers C.columns (is_some node.damage) node.keep.keep) }
    {
        let damage = match self.open_node::<V, C>(k)? {
            Ok(keep) => return Ok(KeptNode { keep, damage: None }),
            Err(damage) => damage,
        };
        Ok(KeptNode {
            keep: FileNodeKeep {
                keep: NodeKeep::damaged(self.node_file(k)?),
            },
            damage: Some(damage),
        })
    }

    /// Opens the keep of a node, or says why it is damaged.
    fn open_node<V: Value, C: ValueColumns<V>>(
        &self,
        k: u8,
    ) -> Result<Result<FileNodeKeep<V, C>, String>, AllocError>
        ensures { IfOk result (λ opened. IfOk opened
            (λ node. IsSomeAnd node.keep.open_keep (λ keep. IsDurable view recovers C.columns keep.keep))) }
    {
        let alloc = self.rt.alloc();
        let seen = match self.seen(k)? {
            Ok(seen) => seen,
            Err(damage) => return Ok(Err(damage)),
        };
        if !may_vote(self.is_new, self.file_bytes(k)?, seen.count()) {
            return Ok(Err(format!(in alloc; "node-{k}.db is missing or empty")?));
        }
        match NodeKeep::open(alloc, self.node_file(k)?, seen) {
            Ok(keep) => Ok(Ok(FileNodeKeep { keep })),
            Err(StoreError::OutOfMemory) => Err(AllocError),
            Err(StoreError::Corrupt) => Ok(Err(format!(in alloc;
                "node-{k}.db is damaged, or has fewer changes than node-{k}.seen says"
            )?)),
            Err(StoreError::Full) => Ok(Err(format!(in alloc;
                "no space is left for node-{k}.db"
            )?)),
            Err(_) => Ok(Err(format!(in alloc; "node-{k}.db cannot be opened, read or written")?)),
        }
    }

    /// Returns how many bytes the database file of a node has, or `None` if it is missing.
    fn file_bytes(&self, k: u8) -> Result<Option<u64>, AllocError> {
        let path = self.path_of(k, "db")?;
        Ok(match fs::metadata(&self.rt, path.as_str()) {
            Ok(found) => Some(found.len()),
            Err(_) => None,
        })
    }

    /// Opens the witness of a node, and makes it in a new folder.
    fn seen(&self, k: u8) -> Result<Result<Seen, String>, AllocError> {
        let alloc = self.rt.alloc();
        let path = self.path_of(k, "seen")?;
        let opened = if self.is_new {
            Seen::create(&self.rt, path.as_str(), self.id, k)
        } else {
            Seen::open(&self.rt, path.as_str(), self.id, k)
        };
        match opened {
            Ok(seen) => Ok(Ok(seen)),
            Err(SeenFault::Memory) => Err(AllocError),
            Err(SeenFault::Damaged) => Ok(Err(format!(in alloc; "node-{k}.seen is damaged")?)),
            Err(SeenFault::Io(error)) => Ok(Err(format!(in alloc; "node-{k}.seen: {error}")?)),
        }
    }

    /// Names the database file of a node.
    fn node_file(&self, k: u8) -> Result<NodeFile, AllocError> {
        // The mark of a file without one is 0.
        let mark = (self.id % 0x7f_ffff) as u32 * 256 + u32::from(k) + 256;
        Ok(NodeFile::new(&self.rt, self.path_of(k, "db")?, mark))
    }

    /// Returns the path of a file of a node.
    fn path_of(&self, k: u8, kind: &str) -> Result<String, AllocError> {
        format!(in self.rt.alloc(); "{}/node-{k}.{kind}", self.path)
    }

    /// Returns how many bytes the files of a node have.
    ///
    /// Errors: an allocation fails.
    fn bytes(&self, k: u8) -> Result<u64, AllocError> {
        let mut bytes = 0u64;
        for kind in NODE_FILES {
            let path = self.path_of(k, kind)?;
            if let Ok(found) = fs::metadata(&self.rt, path.as_str()) {
                bytes = bytes.saturating_add(found.len());
            }
        }
        Ok(bytes)
    }

    /// Gives a new folder its file `library`, once all nodes have their files.
    fn finish(&self) -> Result<(), FolderRefusal> {
        if !self.is_new {
            return Ok(());
        }
        let alloc = self.rt.alloc();
        let draft = format!(in alloc; "{}/library.new", self.path)?;
        let path = format!(in alloc; "{}/library", self.path)?;
        let renamed = fs::rename(&self.rt, draft.as_str(), path.as_str());
        or_line(alloc, path.as_str(), renamed)?;
        or_line(alloc, path.as_str(), self.lock.sync_all())
    }
}

/// Returns the value, or the line that says what failed at a path.
fn or_line<T: Drop>(alloc: Global, path: &str, done: io::Result<T>) -> Result<T, FolderRefusal> {
    match done {
        Ok(value) => Ok(value),
        Err(error) => Err(FolderRefusal::Line(format!(in alloc; "{path}: {error}")?)),
    }
}

/// Makes the folder, unless it is there.
fn make_folder(rt: &HostRuntime, path: &str) -> Result<(), FolderRefusal> {
    match fs::create_dir(rt, path) {
        Err(error) if error.kind() == io::ErrorKind::AlreadyExists => {}
        made => or_line(rt.alloc(), path, made)?,
    }
    if or_line(rt.alloc(), path, fs::metadata(rt, path))?.is_dir() {
        Ok(())
    } else {
        Err(FolderRefusal::Line(format!(in rt.alloc(); "{path}: not a folder")?))
    }
}

/// Opens the folder and locks it.
fn lock_folder(rt: &HostRuntime, path: &str) -> Result<File, FolderRefusal> {
    let folder = or_line(rt.alloc(), path, File::open(rt, path))?;
    match folder.try_lock() {
        Ok(()) => Ok(folder),
        Err(TryLockError::WouldBlock) => Err(FolderRefusal::Line(format!(in rt.alloc();
            "{path}: in use by another process"
        )?)),
        Err(TryLockError::Error(error)) => or_line(rt.alloc(), path, Err(error)),
    }
}

/// Returns the text of a file of the folder, if it is there.
fn read_text(rt: &HostRuntime, path: &str, name: &str) -> Result<Option<String>, FolderRefusal> {
    let file = format!(in rt.alloc(); "{path}/{name}")?;
    match fs::read_to_string(rt, file.as_str()) {
        Ok(text) => Ok(Some(text)),
        Err(error) if error.kind() == io::ErrorKind::NotFound => Ok(None),
        Err(error) if error.kind() == io::ErrorKind::InvalidData => Ok(Some(String::new(
            rt.alloc(),
        ))),
        Err(error) => or_line(rt.alloc(), file.as_str(), Err(error)),
    }
}

/// Writes the draft of the file `library`, and returns its number. If a start that was cut short
/// left a draft, no node has voted yet, and the files that it made are removed.
///
/// Errors: there is no draft, but files of nodes; a file cannot be read, removed or written.
fn begin_library(rt: &HostRuntime, path: &str, terms: &FolderTerms) -> Result<u64, FolderRefusal> {
    let alloc = rt.alloc();
    if has_draft(rt, path)? {
        remove_node_files(rt, path)?;
    } else {
        refuse_node_files(rt, path)?;
    }
    let id = draw_id(rt, path)?;
    let draft = format!(in alloc; "{path}/library.new")?;
    let text = library_text(alloc, terms, id)?;
    let written = write_synced(rt, draft.as_str(), text.as_bytes());
    or_line(alloc, draft.as_str(), written)?;
    Ok(id)
}

/// Returns whether there is a whole draft of the file `library`.
fn has_draft(rt: &HostRuntime, path: &str) -> Result<bool, FolderRefusal> {
    match read_text(rt, path, "library.new")? {
        Some(text) => Ok(without_checksum(rt.alloc(), text.as_str())?.is_some()),
        None => Ok(false),
    }
}

/// Removes the files of nodes.
fn remove_node_files(rt: &HostRuntime, path: &str) -> Result<(), FolderRefusal> {
    for k in 0..MAX_NODES {
        for kind in NODE_FILES {
            let file = format!(in rt.alloc(); "{path}/node-{k}.{kind}")?;
            match fs::remove_file(rt, file.as_str()) {
                Err(error) if error.kind() == io::ErrorKind::NotFound => {}
                removed => or_line(rt.alloc(), file.as_str(), removed)?,
            }
        }
    }
    Ok(())
}

/// Refuses a folder that has files of nodes.
fn refuse_node_files(rt: &HostRuntime, path: &str) -> Result<(), FolderRefusal> {
    for k in 0..MAX_NODES {
        for kind in NODE_FILES {
            let file = format!(in rt.alloc(); "{path}/node-{k}.{kind}")?;
            if fs::metadata(rt, file.as_str()).is_ok() {
                return Err(FolderRefusal::Line(format!(in rt.alloc();
                    "{path}: no file library, but node-{k}.{kind}"
                )?));
            }
        }
    }
    Ok(())
}

/// Compares a file `library` with these terms, and returns the number by which its files are told.
fn compare(
    alloc: Global,
    path: &str,
    terms: &FolderTerms,
    text: &str,
) -> Result<u64, FolderRefusal> {
    let id = match without_checksum(alloc, text)? {
        Some(lines) => id_in(lines),
        None => None,
    };
    let Some(id) = id else {
        return Err(FolderRefusal::Line(format!(in alloc; "{path}/library: damaged")?));
    };
    match difference(alloc, terms, text)? {
        None => Ok(id),
        Some((found, wanted)) => Err(FolderRefusal::Line(format!(in alloc;
            "{path}/library: {found}, not {wanted}"
        )?)),
    }
}

/// Draws the number of a new folder.
fn draw_id(rt: &HostRuntime, path: &str) -> Result<u64, FolderRefusal> {
    match RandomState::new(rt) {
        Ok(state) => Ok(state.hash_one(&0u8)),
        Err(_) => Err(FolderRefusal::Line(format!(in rt.alloc(); "{path}: no random number")?)),
    }
}

/// Writes and removes a file, to see whether the folder can be written to.
fn try_to_write(rt: &HostRuntime, path: &str) -> Result<(), FolderRefusal> {
    let draft = format!(in rt.alloc(); "{path}/library.new")?;
    or_line(rt.alloc(), path, File::create(rt, draft.as_str()))?;
    or_line(rt.alloc(), path, fs::remove_file(rt, draft.as_str()))
}

/// Writes a file and syncs it.
fn write_synced(rt: &HostRuntime, path: &str, bytes: &[u8]) -> io::Result<()> {
    fs::write(rt, path, bytes)?;
    OpenOptions::new().write(true).open(rt, path)?.sync_all()
}

/// The folders of the file system, of which at most one is open. `C` has the columns in which a
/// node's file says a value.
#[derive(Drop)]
pub struct SystemFolders<C: Drop> {
    rt: HostRuntime,
    folder: Option<Folder>,
    form: PhantomData<C>,
}

impl<C: Drop> SystemFolders<C> {
    /// Names the file system. No folder is open yet.
    pub fn new(rt: &HostRuntime) -> Self {
        SystemFolders {
            rt: *rt,
            folder: None,
            form: PhantomData,
        }
    }
}

impl<V: Value + Send + 'static, C: ValueColumns<V> + Send + 'static> KeepFolder<V>
    for SystemFolders<C> {
    type Keep = FileNodeKeep<V, C>;

    fn open(
        &mut self,
        path: &str,
        terms: &FolderTerms,
    ) -> Result<Vec<KeptNode<FileNodeKeep<V, C>>>, FolderRefusal> {
        let folder = Folder::open(&self.rt, path, terms)?;
        let nodes = folder.open_nodes::<V, C>(terms)?;
        self.folder = Some(folder);
        Ok(nodes)
    }

    fn terms(&mut self, path: &str) -> Result<FolderTerms, FolderRefusal> {
        let alloc = self.rt.alloc();
        let text = read_text(&self.rt, path, "library")?.unwrap_or(String::new(alloc));
        let found = match without_checksum(alloc, text.as_str())? {
            Some(lines) => terms_in(alloc, lines)?,
            None => None,
        };
        match found {
            Some(terms) => Ok(terms),
            None => Err(FolderRefusal::Line(format!(in alloc;
                "{path}/library: missing or damaged"
            )?)),
        }
    }

    fn bytes(&self, node: u8) -> Result<u64, AllocError> {
        match &self.folder {
            Some(folder) => folder.bytes(node),
            None => Ok(0),
        }
    }
}
