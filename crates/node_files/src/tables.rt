//! The three trees of a node's file, as SQLite lists them, and a store that has them.
ghost use Rattle.std.specs.Prelude.{◌≡◌, IsTrue, IfOk};
ghost use Rattle.sqlite_trees.specs.View.{IsClean};
ghost use Rattle.sqlite_store.specs.FileStore.{IsReady, view};
ghost use Rattle.file_keep.specs.Tables.{HasTrees};

use file_keep::has_tables;
use sqlite_disk::{Disk, Files};
use sqlite_pager::{Options, Pager};
use sqlite_pool::probe_blank;
use sqlite_store::{FileStore, OpenError, Unopened};
use sqlite_trees::error::StoreError;
use sqlite_trees::schema::Object;
use sqlite_trees::store::Shape;
use sqlite_wal::PageSize;
use std::alloc::Global;

/// The page size of a node's file, in bytes.
const PAGE_BYTES: usize = 4096;

/// The tables, in the order of the trees: `ACCEPTED`, `TEXTS`, `NODE`.
const TABLES: [Object<'static>; 3] = [
    Object {
        shape: Shape::Table,
        kind: "table",
        name: "accepted",
        table: "accepted",
        reals: 0,
        sql: Some("CREATE TABLE accepted (slot INTEGER PRIMARY KEY, round INTEGER, node INTEGER)"),
    },
    Object {
        shape: Shape::Table,
        kind: "table",
        name: "texts",
        table: "texts",
        reals: 0,
        sql: Some(
            "CREATE TABLE texts (slot INTEGER PRIMARY KEY, author INTEGER, serial INTEGER, text TEXT, charter TEXT)",
        ),
    },
    Object {
        shape: Shape::Table,
        kind: "table",
        name: "node",
        table: "node",
        reals: 0,
        sql: Some(
            "CREATE TABLE node (id INTEGER PRIMARY KEY, promise_round INTEGER, promise_node INTEGER, round INTEGER, changes INTEGER)",
        ),
    },
];

/// Returns the fault of a store for the fault of an open.
fn store_fault(error: OpenError) -> StoreError {
    match error {
        OpenError::OutOfMemory => StoreError::OutOfMemory,
        OpenError::Io => StoreError::Io,
        OpenError::Full => StoreError::Full,
        OpenError::Refused => StoreError::Corrupt,
    }
}

/// Opens the store in a database file and its log, whose pages end in sums, or makes it in files
/// that are empty. `seed` is a random number.
///
/// Errors: those of the kit's `FileStore`; `Corrupt` if the file has other tables.
pub(crate) fn store_over<D: Disk + Drop>(
    alloc: Global,
    files: Files<D>,
    seed: u64,
) -> Result<FileStore<D>, StoreError>
    requires log { IsTrue (D.Disk.is_usable files.log) }
    requires db { IsTrue (D.Disk.is_usable files.db) }
    ensures { IfOk result (λ store. IsClean (view store) → HasTrees (view store)) }
{
    let store = attach(alloc, files, seed)?;
    if has_tables(&store) {
        Ok(store)
    } else {
        Err(StoreError::Corrupt)
    }
}

/// Opens or makes the store.
fn attach<D: Disk + Drop>(
    alloc: Global,
    mut files: Files<D>,
    seed: u64,
) -> Result<FileStore<D>, StoreError>
    requires log { IsTrue (D.Disk.is_usable files.log) }
    requires db { IsTrue (D.Disk.is_usable files.db) }
    ensures { IfOk result IsReady }
{
    let Some(size) = PageSize::new(PAGE_BYTES) else {
        return Err(StoreError::Corrupt);
    };
    let Ok(is_blank) = probe_blank(alloc, &mut files, size, true) else {
        return Err(StoreError::Io);
    };
    let Ok(pager) = Pager::new(alloc, files, size, Options::new(seed)) else {
        return Err(StoreError::OutOfMemory);
    };
    let Ok(unopened) = Unopened::with_sums(alloc, pager, &TABLES, true) else {
        return Err(StoreError::OutOfMemory);
    };
    if is_blank {
        opened(unopened.create())
    } else {
        opened(unopened.open_numbered())
    }
}

/// Returns the store that was opened, or its fault.
fn opened<D: Disk + Drop>(
    outcome: Result<FileStore<D>, (OpenError, Unopened<D>)>,
) -> Result<FileStore<D>, StoreError>
    requires { IfOk outcome IsReady }
    ensures { IfOk result IsReady }
{
    match outcome {
        Ok(store) => Ok(store),
        Err((error, _)) => Err(store_fault(error)),
    }
}
