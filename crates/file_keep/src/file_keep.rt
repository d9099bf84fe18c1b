//! A keep whose record is in a file.
ghost use Rattle.std.specs.Prelude.{◌≡◌, false, true, ◌+◌, ◌⊎◌, ◌<◌, ◌≤◌, IsTrue, IfOk, OnOk, OnErr};
ghost use Rattle.std.specs.Prelude.{Some, is_ok, if◌then◌else◌};
ghost use Rattle.slots.specs.FiniteMap.{entry_at, trimmed};
ghost use Rattle.slots.specs.declared.slots.TheConstants.{SLOTS};
ghost use Rattle.synod.specs.Record.{HasCapacityFor, changed};
ghost use Rattle.sqlite_trees.specs.View.{IsClean, doubt};
ghost use Rattle.file_keep.specs.Rows.{Says};
ghost use Rattle.file_keep.specs.Tables.{HasTrees, Keeps, KeepsTrees};
ghost use Rattle.file_keep.specs.Keeps.{IsDurable, IsSettledAt, IsWritten, LeavesNothingNew, LeavesOr};
ghost use Rattle.file_keep.specs.Keeps.{Writes, changed_slot, is_written, with_change};

use crate::reading::read_content;
use crate::tables::Tables;
use crate::value_columns::ValueColumns;
use scope::Steps;
use sqlite_trees::error::StoreError;
use sqlite_trees::store::Store;
use std::alloc::Global;
use std::marker::Model;
use synod::{Change, Failed, Keep, Record, Value, copy_record, ready_change};

/// Whether the file says the record, and if not, what is to be done.
#[derive(Clone, Copy)]
pub(crate) enum Standing {
    /// The last commit says the record.
    Settled,
    /// The open transaction says the record.
    Written,
    /// The file has to be read again.
    Unread,
    /// Rows of the record may not be in the file.
    Unwritten,
}

impl Standing {
    /// Returns the standing of a file that was opened: a file without a change has to be written.
    fn opened(changes: u64) -> Standing
        ensures { is_written result ≡ false }
    {
        if changes == 0 {
            Standing::Unwritten
        } else {
            Standing::Unread
        }
    }

    /// Returns whether what the transaction sees is the record.
    fn is_written(self) -> bool
        ensures { result ≡ is_written self }
    {
        match self {
            Standing::Settled => true,
            Standing::Written => true,
            Standing::Unread => false,
            Standing::Unwritten => false,
        }
    }

    /// Returns the standing if nothing is known of the file any more.
    fn in_doubt(self) -> Standing
        ensures { is_written result ≡ false }
    {
        match self {
            Standing::Settled => Standing::Unread,
            Standing::Unread => Standing::Unread,
            Standing::Written => Standing::Unwritten,
            Standing::Unwritten => Standing::Unwritten,
        }
    }
}

/// The stable storage of a node, in the trees of a store. A call fails if the store or an
/// allocation fails. After a failed call the file is read before anything else is stored.
#[derive(Drop)]
pub struct FileKeep<V: Value, C: ValueColumns<V>, S: Store + Drop> {
    alloc: Global,
    tables: Tables<V, C, S>,
    /// The record that the file says once the keep is settled.
    stored: Record<V>,
    /// The number of changes since the node is new.
    changes: u64,
    standing: Standing,
    /// The number of failed calls, which only contracts see.
    failures: Steps,
}

impl<V: Value, C: ValueColumns<V>, S: Store + Drop> Model for FileKeep<V, C, S> {
    ghost use Rattle.file_keep.specs.Keeps.{IsKeep, KeepView, is_settled, is_written};

    ghost Value = { KeepView V S };

    ghost view = { λ k. record {
      store = k.tables.store;
      content = record { kept = k.stored.kept; changes = k.changes };
      is_settled = is_settled k.standing;
      is_written = is_written k.standing;
      failures = k.failures.count;
    } };

    ghost invariant = { λ k. IsKeep S.view C.columns k.tables.store k.standing
        (record { kept = k.stored.kept; changes = k.changes }) };
}

/// A keep whose file is closed: the record in memory, and what the file may lack of it. Contracts
/// see its content.
#[derive(Drop)]
pub(crate) struct ClosedKeep<V: Value> {
    alloc: Global,
    stored: Record<V>,
    changes: u64,
    standing: Standing,
}

impl<V: Value> Model for ClosedKeep<V> {
    ghost use Rattle.file_keep.specs.Rows.{Content};
    ghost use Rattle.file_keep.specs.Keeps.{IsClosed};

    ghost Value = { Content V };

    ghost view = { λ k. record { kept = k.stored.kept; changes = k.changes } };

    ghost invariant = { λ k. IsClosed k.standing (record { kept = k.stored.kept; changes = k.changes }) };
}

impl<V: Value, C: ValueColumns<V>, S: Store + Drop> FileKeep<V, C, S> {
    /// Opens the keep of a node from a store that has the three trees. If the tree `NODE` has no
    /// row, it is the keep of a new node, and the other trees have to be empty.
    ///
    /// Errors: the store or an allocation fails; `Corrupt` if the trees say no record.
    pub fn open(alloc: Global, store: S) -> Result<FileKeep<V, C, S>, StoreError>
        requires { IsClean (S.view store) → HasTrees (S.view store) }
        ensures durable { IfOk result (λ keep. IsDurable S.view S.recovers C.columns keep) }
        ensures failures { IfOk result (λ keep. keep.failures ≡ 0) }
        ensures crash { IfOk result (λ keep. LeavesOr S.view S.recovers C.columns store keep.store keep.content) }
    {
        let mut tables = Tables::new(alloc, store);
        tables.roll_back();
        let mut stored = Record::new(alloc);
        let changes = read_content(alloc, &mut tables, &mut stored)?;
        let mut keep = FileKeep {
            alloc,
            tables,
            stored,
            changes,
            standing: Standing::opened(changes),
            failures: Steps::new(),
        };
        keep.settle()?;
        Ok(keep)
    }

    /// Gives the store back.
    pub(crate) fn into_store(self) -> S
        ensures { result ≡ self.store }
    {
        self.tables.store
    }

    /// Closes the file, of which nothing is known any more. The record stays in memory.
    pub(crate) fn close(self) -> ClosedKeep<V>
        ensures { result ≡ self.content }
    {
        ClosedKeep {
            alloc: self.alloc,
            stored: self.stored,
            changes: self.changes,
            standing: self.standing.in_doubt(),
        }
    }

    /// Returns the keep over a store in which the file was opened again. Nothing is read yet: the
    /// next call reads that the file says the record, and makes durable what it may not have.
    pub(crate) fn reopen(closed: ClosedKeep<V>, store: S) -> Self
        requires { IsClean (S.view store) → HasTrees (S.view store) }
        ensures store { result.store ≡ store }
        ensures content { result.content ≡ closed }
    {
        let alloc = closed.alloc;
        FileKeep {
            alloc,
            tables: Tables::new(alloc, store),
            stored: closed.stored,
            changes: closed.changes,
            standing: closed.standing,
            failures: Steps::new(),
        }
    }

    /// Returns the number of changes since the node is new.
    pub(crate) fn changes(&self) -> u64
        ensures { result ≡ self.now.content.changes }
    {
        self.changes
    }

    /// Reads the file, and returns a copy of the record, which the file says.
    fn load_record(&mut self) -> Result<Record<V>, StoreError>
        ensures loaded { IfOk result (λ loaded. loaded.kept ≡ self.old.content.kept) }
        ensures durable { OnOk result (IsDurable S.view S.recovers C.columns self.new) }
        ensures content { self.new.content ≡ self.old.content }
        ensures failures { self.new.failures ≡ self.old.failures }
        ensures crash { LeavesOr S.view S.recovers C.columns self.old.store self.new.store self.new.content }
    {
        self.standing = self.standing.in_doubt();
        self.settle()?;
        Ok(copy_record(self.alloc, &self.stored)?)
    }

    /// Makes what is not yet durable durable.
    fn settle(&mut self) -> Result<(), StoreError>
        ensures durable { OnOk result (IsDurable S.view S.recovers C.columns self.new) }
        ensures written { OnOk result (IsWritten S.view C.columns self.new) }
        ensures content { self.new.content ≡ self.old.content }
        ensures failures { self.new.failures ≡ self.old.failures }
        ensures clean { doubt (S.view self.old.store).is_clean ≤ doubt (S.view self.new.store).is_clean }
        ensures crash { LeavesOr S.view S.recovers C.columns self.old.store self.new.store self.new.content }
    {
        if let Standing::Settled = self.standing {
            return Ok(());
        }
        let standing = self.standing;
        self.standing = standing.in_doubt();
        make_durable(&mut self.tables, &self.stored, self.changes, standing)?;
        self.standing = Standing::Settled;
        Ok(())
    }

    /// Makes the open transaction say the record.
    fn begin_change(&mut self) -> Result<(), StoreError>
        ensures written { OnOk result (IsWritten S.view C.columns self.new) }
        ensures content { self.new.content ≡ self.old.content }
        ensures failures { self.new.failures ≡ self.old.failures }
        ensures crash { LeavesOr S.view S.recovers C.columns self.old.store self.new.store self.new.content }
        ensures same { IsTrue self.old.is_written → self.new.store ≡ self.old.store }
    {
        if self.standing.is_written() {
            return Ok(());
        }
        self.settle()
    }

    /// Writes one change into the open transaction.
    fn write_change(&mut self, change: &Change<V>) -> Result<(), StoreError>
        ensures written { OnOk result (IsWritten S.view C.columns self.new) }
        ensures changed { OnOk result (self.new.content ≡ with_change self.old.content change.now) }
        ensures failed { OnErr result
            ((self.new.content ≡ self.old.content) ⊎ (self.new.content ≡ with_change self.old.content change.now)) }
        ensures failures { self.new.failures ≡ self.old.failures }
        ensures crash { LeavesOr S.view S.recovers C.columns self.old.store self.new.store self.old.content }
        ensures is_written { OnOk result (self.new.is_written ≡ true) }
        ensures uncommitted { IsTrue self.old.is_written
            → LeavesNothingNew S.recovers self.old.store self.new.store }
    {
        self.begin_change()?;
        let Some(changes) = self.changes.checked_add(1) else {
            return Err(StoreError::Full);
        };
        let change = ready_change(&mut self.stored, change)?;
        let slot = changed_slot(&change);
        self.standing = Standing::Unwritten;
        self.stored.apply_change(Some(change));
        self.changes = changes;
        put_change(&mut self.tables, &self.stored, changes, slot)?;
        self.standing = Standing::Written;
        Ok(())
    }
}

/// Returns the slot whose entry a change sets, if it sets one.
fn changed_slot<V>(change: &Change<V>) -> Option<u32>
    ensures { result ≡ changed_slot change.now }
{
    match change {
        Change::Round(_) => None,
        Change::Promise(_) => None,
        Change::Entry { slot, .. } => Some(*slot),
    }
}

/// Puts the rows of a slot and of the node.
fn put_change<V: Value, C: ValueColumns<V>, S: Store + Drop>(
    tables: &mut Tables<V, C, S>,
    stored: &Record<V>,
    changes: u64,
    slot: Option<u32>,
) -> Result<(), StoreError>
    requires { IsClean (S.view tables.old.store) → HasTrees (S.view tables.old.store) }
    ensures put { OnOk result
        (IsClean (S.view tables.new.store)
        → Writes C.columns (S.view tables.old.store) (S.view tables.new.store) slot
        (record { kept = stored.now.kept; changes = changes })) }
    ensures keeps { Keeps S.view S.recovers tables.old.store tables.new.store }
{
    if let Some(slot) = slot {
        if let Some(entry) = stored.get(slot) {
            tables.put_entry(slot, entry)?;
        }
    }
    tables.put_node(stored.promise(), stored.round(), changes)
}

/// Puts the rows of a whole record.
fn put_record<V: Value, C: ValueColumns<V>, S: Store + Drop>(
    tables: &mut Tables<V, C, S>,
    stored: &Record<V>,
    changes: u64,
) -> Result<(), StoreError>
    requires { IsClean (S.view tables.old.store) → HasTrees (S.view tables.old.store) }
    ensures keeps { Keeps S.view S.recovers tables.old.store tables.new.store }
{
    for slot in 0..stored.top() {
        if let Some(entry) = stored.get(slot) {
            tables.put_entry(slot, entry)?;
        }
    }
    tables.put_node(stored.promise(), stored.round(), changes)
}

/// Commits what the transaction says. If that may not be the record, it first puts the rows that
/// are unwritten, and reads that the trees say the record.
fn make_durable<V: Value, C: ValueColumns<V>, S: Store + Drop>(
    tables: &mut Tables<V, C, S>,
    stored: &Record<V>,
    changes: u64,
    standing: Standing,
) -> Result<(), StoreError>
    requires trees { IsClean (S.view tables.old.store) → HasTrees (S.view tables.old.store) }
    requires written { IsTrue (is_written standing) → IsClean (S.view tables.old.store)
        → Says C.columns (S.view tables.old.store).trees (record { kept = stored.now.kept; changes = changes }) }
    ensures settled { OnOk result
        (IsClean (S.view tables.new.store)
        → IsSettledAt C.columns (S.view tables.new.store) (record { kept = stored.now.kept; changes = changes })) }
    ensures keeps { KeepsTrees (S.view tables.old.store) (S.view tables.new.store) }
    ensures crash { LeavesOr S.view S.recovers C.columns tables.old.store tables.new.store
        (record { kept = stored.now.kept; changes = changes }) }
{
    if let Standing::Written = standing {
        return tables.commit();
    }
    mend(tables, stored, changes, standing)
}

/// Goes back to the last commit, puts the rows that are unwritten, reads that the trees say the
/// record, and commits.
fn mend<V: Value, C: ValueColumns<V>, S: Store + Drop>(
    tables: &mut Tables<V, C, S>,
    stored: &Record<V>,
    changes: u64,
    standing: Standing,
) -> Result<(), StoreError>
    requires { IsClean (S.view tables.old.store) → HasTrees (S.view tables.old.store) }
    ensures settled { OnOk result
        (IsClean (S.view tables.new.store)
        → IsSettledAt C.columns (S.view tables.new.store) (record { kept = stored.now.kept; changes = changes })) }
    ensures keeps { KeepsTrees (S.view tables.old.store) (S.view tables.new.store) }
    ensures crash { LeavesOr S.view S.recovers C.columns tables.old.store tables.new.store
        (record { kept = stored.now.kept; changes = changes }) }
{
    tables.roll_back();
    if let Standing::Unwritten = standing {
        put_record(tables, stored, changes)?;
    }
    tables.check(stored, changes)?;
    tables.commit()
}

impl<V: Value, C: ValueColumns<V>, S: Store + Drop> Keep<V> for FileKeep<V, C, S> {
    ghost kept = { λ k. k.content.kept };

    ghost is_committed = { λ k. k.is_settled };

    ghost failures = { λ k. k.failures };

    /// Writes one change into the open transaction. So a crash leaves nothing of it before the
    /// commit; if a call failed before, the content before the change is made durable first.
    fn store(&mut self, change: &Change<V>) -> Result<(), Failed>
        ensures stored { OnOk result (self.new.content.kept ≡ changed self.old.content.kept change.now) }
        ensures failed { OnErr result
            ((self.new.content.kept ≡ self.old.content.kept)
            ⊎ (self.new.content.kept ≡ changed self.old.content.kept change.now)) }
        ensures counted { self.new.failures ≡ (if is_ok result then self.old.failures else self.old.failures + 1) }
        ensures written { OnOk result (IsWritten S.view C.columns self.new) }
        ensures is_written { OnOk result (self.new.is_written ≡ true) }
        ensures changed { OnOk result (self.new.content ≡ with_change self.old.content change.now) }
        ensures either { OnErr result
            ((self.new.content ≡ self.old.content) ⊎ (self.new.content ≡ with_change self.old.content change.now)) }
        ensures crash { LeavesOr S.view S.recovers C.columns self.old.store self.new.store self.old.content }
        ensures uncommitted { IsTrue self.old.is_written
            → LeavesNothingNew S.recovers self.old.store self.new.store }
    {
        match self.write_change(change) {
            Ok(()) => Ok(()),
            Err(_) => {
                self.failures.tick();
                Err(Failed)
            }
        }
    }

    /// Commits the open transaction. At Ok all changes that were stored are durable: whatever
    /// happens, the file has them.
    fn commit(&mut self) -> Result<(), Failed>
        ensures committed { OnOk result (self.new.is_settled ≡ true) }
        ensures same { self.new.content.kept ≡ self.old.content.kept }
        ensures counted { self.new.failures ≡ (if is_ok result then self.old.failures else self.old.failures + 1) }
        ensures durable { OnOk result (IsDurable S.view S.recovers C.columns self.new) }
        ensures content { self.new.content ≡ self.old.content }
        ensures crash { LeavesOr S.view S.recovers C.columns self.old.store self.new.store self.new.content }
    {
        match self.settle() {
            Ok(()) => Ok(()),
            Err(_) => {
                self.failures.tick();
                Err(Failed)
            }
        }
    }

    /// Reads the file, and returns the record.
    fn load(&mut self) -> Result<Record<V>, Failed>
        ensures committed { OnOk result (self.new.is_settled ≡ true) }
        ensures loaded { IfOk result (λ loaded. loaded.kept ≡ self.old.content.kept) }
        ensures same { self.new.content.kept ≡ self.old.content.kept }
        ensures counted { self.new.failures ≡ (if is_ok result then self.old.failures else self.old.failures + 1) }
        ensures found { IfOk result
            (λ loaded. IsClean (S.view self.new.store) → Says C.columns (S.view self.new.store).committed
            (record { kept = loaded.kept; changes = self.new.content.changes })) }
        ensures durable { OnOk result (IsDurable S.view S.recovers C.columns self.new) }
        ensures content { self.new.content ≡ self.old.content }
        ensures crash { LeavesOr S.view S.recovers C.columns self.old.store self.new.store self.new.content }
    {
        match self.load_record() {
            Ok(stored) => Ok(stored),
            Err(_) => {
                self.failures.tick();
                Err(Failed)
            }
        }
    }
}
