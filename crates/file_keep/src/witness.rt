//! A keep in a file, with a witness of how many changes the file has.
ghost use Rattle.std.specs.Prelude.{◌≡◌, true, ◌+◌, ◌≤◌, ◌⊎◌, ℕ, IfOk, IsTrue, OnErr, OnOk, is_ok};
ghost use Rattle.std.specs.Prelude.{if◌then◌else◌};
ghost use Rattle.sqlite_trees.specs.View.{IsClean};
ghost use Rattle.synod.specs.Record.{changed};
ghost use Rattle.file_keep.specs.Rows.{Says};
ghost use Rattle.file_keep.specs.Tables.{HasTrees};
ghost use Rattle.file_keep.specs.Keeps.{IsDurable, IsWritten, LeavesNothingNew, LeavesOr, with_change};

use crate::file_keep::{ClosedKeep, FileKeep};
use crate::value_columns::ValueColumns;
use sqlite_trees::error::StoreError;
use sqlite_trees::store::Store;
use std::alloc::Global;
use std::marker::Model;
use synod::{Change, Failed, Keep, Record, Value};

/// What stands beside the file of a node and tells how many changes the file has at least. Damage
/// of a file may drop its last changes without an error; a file with fewer changes than its witness
/// tells is damaged.
pub trait Witness: Drop {
    /// The number of changes that it tells.
    ghost noted: { Self → ℕ };

    /// How often a note failed.
    ghost failed_notes: { Self → ℕ };

    /// Returns the number of changes that it tells.
    fn count(&self) -> u64
        ensures { result ≡ noted self.now };

    /// Notes a number of changes. If that fails it tells the old number or the new one.
    fn note(&mut self, changes: u64)
        ensures told { failed_notes self.new ≡ failed_notes self.old → noted self.new ≡ changes }
        ensures either { (noted self.new ≡ noted self.old) ⊎ (noted self.new ≡ changes) };
}

/// The stable storage of a node in a file that has a witness. A change is noted once it is
/// committed, so the witness may tell fewer changes than the file has, and never more.
#[derive(Drop)]
pub struct WitnessedKeep<V: Value, C: ValueColumns<V>, S: Store + Drop, W: Witness> {
    keep: FileKeep<V, C, S>,
    witness: W,
}

impl<V: Value, C: ValueColumns<V>, S: Store + Drop, W: Witness> Model
    for WitnessedKeep<V, C, S, W> {
    ghost use Rattle.file_keep.specs.Keeps.{WitnessedView};

    ghost Value = { WitnessedView V S };

    ghost view = { λ k. record {
      keep = k.keep;
      noted = W.noted k.witness;
      failed_notes = W.failed_notes k.witness;
    } };
}

impl<V: Value, C: ValueColumns<V>, S: Store + Drop, W: Witness> WitnessedKeep<V, C, S, W> {
    /// Opens the keep of a node from a store that has the three trees, as `FileKeep::open` does.
    ///
    /// Errors: those of `FileKeep::open`; `Corrupt` if the file has fewer changes than its witness
    /// tells.
    pub fn open(
        alloc: Global,
        store: S,
        witness: W,
    ) -> Result<WitnessedKeep<V, C, S, W>, StoreError>
        requires { IsClean (S.view store) → HasTrees (S.view store) }
        ensures noted { IfOk result (λ keep. keep.noted ≡ W.noted witness) }
        ensures whole { IfOk result (λ keep. W.noted witness ≤ keep.keep.content.changes) }
        ensures durable { IfOk result (λ keep. IsDurable S.view S.recovers C.columns keep.keep) }
        ensures failures { IfOk result (λ keep. keep.keep.failures ≡ 0) }
        ensures crash { IfOk result
            (λ keep. LeavesOr S.view S.recovers C.columns store keep.keep.store keep.keep.content) }
    {
        let keep = FileKeep::open(alloc, store)?;
        if keep.changes() < witness.count() {
            return Err(StoreError::Corrupt);
        }
        Ok(WitnessedKeep { keep, witness })
    }

    /// Notes the number of changes, unless the witness tells it.
    fn note(&mut self)
        ensures keep { self.new.keep ≡ self.old.keep }
        ensures told { self.new.failed_notes ≡ self.old.failed_notes
            → self.new.noted ≡ self.old.keep.content.changes }
        ensures either { (self.new.noted ≡ self.old.noted) ⊎ (self.new.noted ≡ self.old.keep.content.changes) }
    {
        if self.witness.count() != self.keep.changes() {
            self.witness.note(self.keep.changes());
        }
    }

    /// Gives the store back.
    pub(crate) fn into_store(self) -> S
        ensures { result ≡ self.keep.store }
    {
        self.keep.into_store()
    }

    /// Closes the file. The record and the witness stay.
    pub(crate) fn close(self) -> ClosedNode<V, W>
        ensures { result ≡ self.keep.content }
    {
        ClosedNode {
            keep: self.keep.close(),
            witness: self.witness,
        }
    }

    /// Returns the keep over a store in which the file was opened again, as `FileKeep::reopen`
    /// does.
    pub(crate) fn reopen(closed: ClosedNode<V, W>, store: S) -> Self
        requires { IsClean (S.view store) → HasTrees (S.view store) }
        ensures { result.keep.content ≡ closed }
    {
        WitnessedKeep {
            keep: FileKeep::reopen(closed.keep, store),
            witness: closed.witness,
        }
    }
}

/// A `WitnessedKeep` whose file is closed. Contracts see its content.
#[derive(Drop)]
pub(crate) struct ClosedNode<V: Value, W: Witness> {
    keep: ClosedKeep<V>,
    witness: W,
}

impl<V: Value, W: Witness> Model for ClosedNode<V, W> {
    ghost use Rattle.file_keep.specs.Rows.{Content};

    ghost Value = { Content V };

    ghost view = { λ k. k.keep };
}

impl<V: Value, C: ValueColumns<V>, S: Store + Drop, W: Witness> Keep<V>
    for WitnessedKeep<V, C, S, W> {
    ghost kept = { λ k. k.keep.content.kept };

    ghost is_committed = { λ k. k.keep.is_settled };

    ghost failures = { λ k. k.keep.failures };

    /// Writes one change into the open transaction, as `FileKeep` does.
    fn store(&mut self, change: &Change<V>) -> Result<(), Failed>
        ensures stored { OnOk result (self.new.keep.content.kept ≡ changed self.old.keep.content.kept change.now) }
        ensures failed { OnErr result
            ((self.new.keep.content.kept ≡ self.old.keep.content.kept)
            ⊎ (self.new.keep.content.kept ≡ changed self.old.keep.content.kept change.now)) }
        ensures counted { self.new.keep.failures
            ≡ (if is_ok result then self.old.keep.failures else self.old.keep.failures + 1) }
        ensures noted { self.new.noted ≡ self.old.noted }
        ensures written { OnOk result (IsWritten S.view C.columns self.new.keep) }
        ensures is_written { OnOk result (self.new.keep.is_written ≡ true) }
        ensures changed { OnOk result (self.new.keep.content ≡ with_change self.old.keep.content change.now) }
        ensures either { OnErr result
            ((self.new.keep.content ≡ self.old.keep.content)
            ⊎ (self.new.keep.content ≡ with_change self.old.keep.content change.now)) }
        ensures crash { LeavesOr S.view S.recovers C.columns
            self.old.keep.store self.new.keep.store self.old.keep.content }
        ensures uncommitted { IsTrue self.old.keep.is_written
            → LeavesNothingNew S.recovers self.old.keep.store self.new.keep.store }
    {
        self.keep.store(change)
    }

    /// Commits the open transaction, as `FileKeep` does, and then notes how many changes there are.
    fn commit(&mut self) -> Result<(), Failed>
        ensures committed { OnOk result (self.new.keep.is_settled ≡ true) }
        ensures same { self.new.keep.content.kept ≡ self.old.keep.content.kept }
        ensures counted { self.new.keep.failures
            ≡ (if is_ok result then self.old.keep.failures else self.old.keep.failures + 1) }
        ensures noted { OnOk result
            ((self.new.noted ≡ self.old.noted) ⊎ (self.new.noted ≡ self.new.keep.content.changes)) }
        ensures told { OnOk result
            (self.new.failed_notes ≡ self.old.failed_notes → self.new.noted ≡ self.new.keep.content.changes) }
        ensures unnoted { OnErr result (self.new.noted ≡ self.old.noted) }
        ensures durable { OnOk result (IsDurable S.view S.recovers C.columns self.new.keep) }
        ensures content { self.new.keep.content ≡ self.old.keep.content }
        ensures crash { LeavesOr S.view S.recovers C.columns
            self.old.keep.store self.new.keep.store self.new.keep.content }
    {
        self.keep.commit()?;
        self.note();
        Ok(())
    }

    /// Reads the file, and returns the record. What was not durable is so before, and then noted.
    fn load(&mut self) -> Result<Record<V>, Failed>
        ensures committed { OnOk result (self.new.keep.is_settled ≡ true) }
        ensures loaded { IfOk result (λ loaded. loaded.kept ≡ self.old.keep.content.kept) }
        ensures same { self.new.keep.content.kept ≡ self.old.keep.content.kept }
        ensures counted { self.new.keep.failures
            ≡ (if is_ok result then self.old.keep.failures else self.old.keep.failures + 1) }
        ensures noted { OnOk result
            ((self.new.noted ≡ self.old.noted) ⊎ (self.new.noted ≡ self.new.keep.content.changes)) }
        ensures told { OnOk result
            (self.new.failed_notes ≡ self.old.failed_notes → self.new.noted ≡ self.new.keep.content.changes) }
        ensures unnoted { OnErr result (self.new.noted ≡ self.old.noted) }
        ensures found { IfOk result
            (λ loaded. IsClean (S.view self.new.keep.store) → Says C.columns (S.view self.new.keep.store).committed
            (record { kept = loaded.kept; changes = self.new.keep.content.changes })) }
        ensures durable { OnOk result (IsDurable S.view S.recovers C.columns self.new.keep) }
        ensures content { self.new.keep.content ≡ self.old.keep.content }
        ensures crash { LeavesOr S.view S.recovers C.columns
            self.old.keep.store self.new.keep.store self.new.keep.content }
    {
        let stored = self.keep.load()?;
        self.note();
        Ok(stored)
    }
}
