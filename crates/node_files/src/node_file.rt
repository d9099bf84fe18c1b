//! The file of a node: how it is opened and closed.
ghost use Rattle.std.specs.Prelude.{IfOk};
ghost use Rattle.sqlite_trees.specs.View.{IsClean};
ghost use Rattle.sqlite_store.specs.FileStore.{view};
ghost use Rattle.file_keep.specs.NodeKeeps.{is_settled_in, kept_of};
ghost use Rattle.file_keep.specs.Tables.{HasTrees};

use crate::seen::Seen;
use crate::tables::store_over;
use file_keep::{NodeKeep, Opener, ValueColumns, mark_store};
use sqlite_std_file::{File, OpenError, Unknown};
use sqlite_store::FileStore;
use sqlite_trees::error::StoreError;
use sqlite_trees::store::Store;
use std::hash::{BuildHasher, RandomState};
use std::rt::HostRuntime;
use synod::{Change, Failed, Keep, Record, Value};

/// The keep of a node in the files of a folder. It is a struct of its own, so that a caller that
/// names its type does not prove again what the calls of SQLite's store do and how it is dropped.
pub struct FileNodeKeep<V: Value, C: ValueColumns<V>> {
    /// Its calls are those of this keep.
    pub keep: NodeKeep<V, C, FileStore<File>, Seen, NodeFile>,
}

impl<V: Value, C: ValueColumns<V>> Drop for FileNodeKeep<V, C> {
    fn drop(self) {
        let FileNodeKeep { keep: _ } = self;
    }
}

impl<V: Value, C: ValueColumns<V>> Keep<V> for FileNodeKeep<V, C> {
    ghost kept = { λ k. kept_of k.keep.open_keep k.keep.closed };

    ghost is_committed = { λ k. is_settled_in k.keep.open_keep };

    ghost failures = { λ k. k.keep.failures };

    fn store(&mut self, change: &Change<V>) -> Result<(), Failed> {
        self.keep.store(change)
    }

    fn commit(&mut self) -> Result<(), Failed> {
        self.keep.commit()
    }

    fn load(&mut self) -> Result<Record<V>, Failed> {
        self.keep.load()
    }
}

/// Where the database file of a node stands, and the mark by which it is told from the file of
/// another node or folder.
#[derive(Drop)]
pub struct NodeFile {
    rt: HostRuntime,
    path: String,
    mark: u32,
}

impl NodeFile {
    /// Names the file at a path.
    pub(crate) fn new(rt: &HostRuntime, path: String, mark: u32) -> NodeFile {
        NodeFile {
            rt: *rt,
            path,
            mark,
        }
    }
}

/// Opens the database file at a path and its log, or makes those that are missing.
fn open_at(rt: &HostRuntime, path: &str) -> Result<FileStore<File>, StoreError>
    ensures { IfOk result (λ store. IsClean (view store) → HasTrees (view store)) }
{
    let files = match sqlite_std_file::open(rt, path, Unknown) {
        Ok(files) => files,
        Err(OpenError::OutOfMemory) => return Err(StoreError::OutOfMemory),
        Err(_) => return Err(StoreError::Io),
    };
    let Ok(seeds) = RandomState::new(rt) else {
        return Err(StoreError::Io);
    };
    store_over(rt.alloc(), files, seeds.hash_one(&0u8))
}

impl Opener<FileStore<File>> for NodeFile {
    fn open(&mut self) -> Result<FileStore<File>, StoreError> {
        let mut store = open_at(&self.rt, self.path.as_str())?;
        mark_store(self.rt.alloc(), &mut store, self.mark)?;
        Ok(store)
    }

    /// Copies the log into the database file.
    fn close(&mut self, store: FileStore<File>) {
        let mut store = store;
        store.rollback();
        let _ = store.checkpoint();
    }
}
