//! Stores that a node's file can be opened as: their tables, and the mark of a file.
ghost use Rattle.std.specs.Prelude.{◌≡◌, ◌↔◌, IsTrue, OnOk};
ghost use Rattle.sqlite_trees.specs.View.{IsClean};
ghost use Rattle.sqlite_trees.specs.declared.store.Shape.TheVariants.{Table};
ghost use Rattle.file_keep.specs.Tables.{HasTables, HasTrees};

use crate::rows::{ACCEPTED, NODE, TEXTS};
use sqlite_trees::error::StoreError;
use sqlite_trees::store::{Alter, Shape, Store};
use sqlite_value::row::Row;
use std::alloc::Global;

/// Returns whether the store has the three trees.
pub fn has_tables<S: Store>(store: &S) -> bool
    ensures { IsTrue result → HasTables (S.view store.now) }
{
    let accepted = store.shape(ACCEPTED);
    let texts = store.shape(TEXTS);
    let node = store.shape(NODE);
    accepted == Shape::Table && texts == Shape::Table && node == Shape::Table
}

/// Compares the mark of a file, SQLite's user version, with the one that it has to have. A file
/// without a mark, which is 0, gets it if no node has stored anything there.
///
/// Errors: `Corrupt` if the file has another mark; those of the store.
pub fn mark_store<S: Alter + Drop>(
    alloc: Global,
    store: &mut S,
    mark: u32,
) -> Result<(), StoreError>
    requires { IsClean (S.Store.view store.old) → HasTrees (S.Store.view store.old) }
    ensures { OnOk result (IsClean (S.Store.view store.new) → HasTrees (S.Store.view store.new)) }
{
    let found = store.version();
    if found == mark {
        return Ok(());
    }
    if found != 0 || store.get(NODE, 0, &mut Row::new(alloc))? {
        return Err(StoreError::Corrupt);
    }
    store.set_version(mark)?;
    store.commit()
}
