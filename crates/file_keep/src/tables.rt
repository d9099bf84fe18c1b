//! The three trees of a store: rows are put, and the trees are compared with a record.
ghost use Rattle.std.specs.Prelude.{◌≡◌, ◌++◌, [], ◌∷◌, pos, Some, IsSome, IsTrue, OnOk, take};
ghost use Rattle.sqlite_value.specs.declared.value.Value.TheVariants.{Int};
ghost use Rattle.sqlite_trees.specs.Tree.{rowid};
ghost use Rattle.sqlite_trees.specs.View.{IsClean, StayLive};
ghost use Rattle.sqlite_trees.specs.declared.store.Shape.TheVariants.{Table};
ghost use Rattle.slots.specs.FiniteMap.{entry_at};
ghost use Rattle.file_keep.specs.Rows.{Says, columns_in, node_row_of, number_of, rows_from};
ghost use Rattle.file_keep.specs.Rows.{rows_of};
ghost use Rattle.file_keep.specs.Tables.{Ends, Gives, HasTrees, IsCommitted, Keeps, KeepsTrees};
ghost use Rattle.file_keep.specs.Tables.{LeavesTrees, PutsEntry, PutsNode, PutsRow, Reads, Scans};

use crate::rows::{ACCEPTED, NODE, SlotTree, TEXTS, write_node};
use crate::value_columns::ValueColumns;
use sqlite_trees::error::StoreError;
use sqlite_trees::store::{Direction, Store};
use sqlite_value::row::Row;
use std::alloc::Global;
use std::marker::PhantomData;
use synod::{AcceptedEntry, Ballot, Record, Value};

/// A store with the three trees, and two rows that are used again and again.
#[derive(Drop)]
pub(crate) struct Tables<V: Value, C: ValueColumns<V>, S: Store + Drop> {
    alloc: Global,
    pub store: S,
    /// The row that is put or expected.
    row: Row,
    /// The row that was read.
    found: Row,
    /// The columns that say a value.
    form: PhantomData<(V, C)>,
}

impl<V: Value, C: ValueColumns<V>, S: Store + Drop> Tables<V, C, S> {
    /// Takes a store that has the three trees.
    pub fn new(alloc: Global, store: S) -> Self
        ensures { result.store ≡ store }
    {
        Tables {
            alloc,
            store,
            row: Row::new(alloc),
            found: Row::new(alloc),
            form: PhantomData,
        }
    }

    /// Puts the row into a tree, unless it is there: a text is not written again.
    fn put(&mut self, tree: u32, id: u32) -> Result<(), StoreError>
        requires table { IsClean (S.view self.old.store) → (S.view self.old.store).shape tree ≡ Table }
        requires id { rowid self.old.row ≡ Int (pos id) }
        ensures put { OnOk result
            (IsClean (S.view self.new.store)
            → PutsRow (S.view self.old.store) (S.view self.new.store) tree self.old.row) }
        ensures keeps { Keeps S.view S.recovers self.old.store self.new.store }
    {
        if self.store.get(tree, i64::from(id), &mut self.found)? && self.row.is_same(&self.found) {
            return Ok(());
        }
        self.store.put(tree, &self.row)
    }

    /// Places the cursor before the first row of a tree.
    pub fn begin(&mut self, tree: u32) -> Result<(), StoreError>
        ensures begun { OnOk result (Scans S.view S.recovers self.old.store self.new.store tree []) }
        ensures keeps { Keeps S.view S.recovers self.old.store self.new.store }
    {
        self.row.clear();
        self.store.seek(0, tree, &self.row, Direction::Forward)
    }

    /// Reads the row with this rowid, or returns false if there is none.
    pub fn read(&mut self, tree: u32, id: u32) -> Result<bool, StoreError>
        requires { IsClean (S.view self.old.store) → (S.view self.old.store).shape tree ≡ Table }
        ensures live { OnOk result (StayLive (S.view self.old.store) (S.view self.new.store)) }
        ensures keeps { Keeps S.view S.recovers self.old.store self.new.store }
    {
        self.store.get(tree, i64::from(id), &mut self.found)
    }

    /// Reads the next row, or returns false at the end.
    pub fn read_next(&mut self) -> Result<bool, StoreError>
        requires { IsSome ((S.view self.old.store).cursors 0) }
        ensures live { OnOk result (IsSome ((S.view self.new.store).cursors 0)) }
        ensures keeps { Keeps S.view S.recovers self.old.store self.new.store }
    {
        self.store.next(0, &mut self.found)
    }

    /// Returns the row that was read last.
    pub fn found(&self) -> &Row {
        &self.found
    }

    /// Reads the next row, which has to be the one that is expected.
    ///
    /// Errors: `Corrupt` if the tree has another row or none.
    fn expect(&mut self) -> Result<(), StoreError>
        requires { IsSome ((S.view self.old.store).cursors 0) }
        ensures next { OnOk result
            (IsClean (S.view self.new.store)
            → Gives (S.view self.old.store) (S.view self.new.store) (self.old.row ∷ [])) }
        ensures live { OnOk result (IsSome ((S.view self.new.store).cursors 0)) }
        ensures keeps { Keeps S.view S.recovers self.old.store self.new.store }
    {
        if self.store.next(0, &mut self.found)? && self.row.is_same(&self.found) {
            Ok(())
        } else {
            Err(StoreError::Corrupt)
        }
    }

    /// Reads that the tree has no further row.
    ///
    /// Errors: `Corrupt` if it has one.
    fn expect_end(&mut self) -> Result<(), StoreError>
        requires { IsSome ((S.view self.old.store).cursors 0) }
        ensures end { OnOk result
            (IsClean (S.view self.new.store) → Ends (S.view self.old.store) (S.view self.new.store)) }
        ensures keeps { Keeps S.view S.recovers self.old.store self.new.store }
    {
        if self.store.next(0, &mut self.found)? {
            Err(StoreError::Corrupt)
        } else {
            Ok(())
        }
    }

    /// Reads the row of a slot of a tree, if the record has an entry there.
    ///
    /// Errors: `Corrupt` if the tree has another row or none.
    fn expect_slot(
        &mut self,
        tree: SlotTree,
        source: &Record<V>,
        slot: u32,
    ) -> Result<(), StoreError>
        requires { IsSome ((S.view self.old.store).cursors 0) }
        ensures next { OnOk result
            (IsClean (S.view self.new.store) → Gives (S.view self.old.store) (S.view self.new.store)
            (rows_of (columns_in C.columns tree) slot (entry_at source.now.kept.accepted slot))) }
        ensures live { OnOk result (IsSome ((S.view self.new.store).cursors 0)) }
        ensures keeps { Keeps S.view S.recovers self.old.store self.new.store }
    {
        let Some(entry) = source.get(slot) else {
            return Ok(());
        };
        tree.write::<V, C>(self.alloc, &mut self.row, slot, entry)?;
        self.expect()
    }

    /// Reads whether a tree has the rows of a record, and no others.
    ///
    /// Errors: `Corrupt` if it has not.
    fn check_tree(&mut self, tree: SlotTree, source: &Record<V>) -> Result<(), StoreError>
        ensures says { OnOk result (IsClean (S.view self.new.store) →
            (S.view self.old.store).trees (number_of tree)
            ≡ rows_from (columns_in C.columns tree) 0 source.now.kept.accepted) }
        ensures same { OnOk result
            (IsClean (S.view self.new.store) → Reads (S.view self.old.store) (S.view self.new.store)) }
        ensures keeps { Keeps S.view S.recovers self.old.store self.new.store }
    {
        self.begin(tree.number())?;
        for slot in 0..source.top() {
            self.expect_slot(tree, source, slot)?;
        }
        self.expect_end()
    }

    /// Reads whether the tree `NODE` has this row alone.
    ///
    /// Errors: `Corrupt` if it has not.
    fn check_node(&mut self, promise: Ballot, round: u64, changes: u64) -> Result<(), StoreError>
        ensures says { OnOk result
            (IsClean (S.view self.new.store)
            → (S.view self.old.store).trees NODE ≡ node_row_of promise round changes ∷ []) }
        ensures same { OnOk result
            (IsClean (S.view self.new.store) → Reads (S.view self.old.store) (S.view self.new.store)) }
        ensures keeps { Keeps S.view S.recovers self.old.store self.new.store }
    {
        self.begin(NODE)?;
        write_node(&mut self.row, promise, round, changes)?;
        self.expect()?;
        self.expect_end()
    }

    /// Reads whether the trees say this record and this number of changes.
    ///
    /// Errors: `Corrupt` if they do not.
    pub fn check(&mut self, source: &Record<V>, changes: u64) -> Result<(), StoreError>
        ensures says { OnOk result
            (IsClean (S.view self.new.store)
            → Says C.columns (S.view self.old.store).trees record { kept = source.now.kept; changes = changes }) }
        ensures same { OnOk result
            (IsClean (S.view self.new.store) → Reads (S.view self.old.store) (S.view self.new.store)) }
        ensures keeps { Keeps S.view S.recovers self.old.store self.new.store }
    {
        self.check_tree(SlotTree::Accepted, source)?;
        self.check_tree(SlotTree::Texts, source)?;
        self.check_node(source.promise(), source.round(), changes)
    }

    /// Puts the rows of a slot.
    pub fn put_entry(&mut self, slot: u32, entry: &AcceptedEntry<V>) -> Result<(), StoreError>
        requires { IsClean (S.view self.old.store) → HasTrees (S.view self.old.store) }
        ensures put { OnOk result
            (IsClean (S.view self.new.store)
            → PutsEntry C.columns (S.view self.old.store) (S.view self.new.store) slot entry.now) }
        ensures keeps { Keeps S.view S.recovers self.old.store self.new.store }
    {
        SlotTree::Accepted.write::<V, C>(self.alloc, &mut self.row, slot, entry)?;
        self.put(ACCEPTED, slot)?;
        SlotTree::Texts.write::<V, C>(self.alloc, &mut self.row, slot, entry)?;
        self.put(TEXTS, slot)
    }

    /// Puts the row of the node.
    pub fn put_node(&mut self, promise: Ballot, round: u64, changes: u64) -> Result<(), StoreError>
        requires { IsClean (S.view self.old.store) → HasTrees (S.view self.old.store) }
        ensures put { OnOk result
            (IsClean (S.view self.new.store)
            → PutsNode (S.view self.old.store) (S.view self.new.store) (node_row_of promise round changes)) }
        ensures keeps { Keeps S.view S.recovers self.old.store self.new.store }
    {
        write_node(&mut self.row, promise, round, changes)?;
        self.put(NODE, 0)
    }

    /// Goes back to the last commit, unless the store is shut.
    pub fn roll_back(&mut self)
        ensures { Keeps S.view S.recovers self.old.store self.new.store }
    {
        self.store.rollback();
    }

    /// Commits what was written.
    pub fn commit(&mut self) -> Result<(), StoreError>
        ensures committed { OnOk result
            (IsClean (S.view self.new.store) → IsCommitted (S.view self.old.store) (S.view self.new.store)) }
        ensures keeps { KeepsTrees (S.view self.old.store) (S.view self.new.store) }
        ensures crash { LeavesTrees S.view S.recovers self.old.store self.new.store }
    {
        self.store.commit()
    }
}
