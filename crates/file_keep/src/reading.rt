//! Reading a record from the three trees.
ghost use Rattle.std.specs.Prelude.{◌≡◌, ◌<◌, [], IsSome, IfOk, IfSome, OnOk, None};
ghost use Rattle.slots.specs.FiniteMap.{trimmed};
ghost use Rattle.slots.specs.declared.slots.TheConstants.{SLOTS};
ghost use Rattle.sqlite_trees.specs.View.{IsClean, StayLive};
ghost use Rattle.file_keep.specs.Tables.{HasTrees, Keeps};

use crate::rows::{ACCEPTED, NODE, TEXTS};
use crate::tables::Tables;
use crate::value_columns::ValueColumns;
use slots::SLOTS;
use sqlite_trees::error::StoreError;
use sqlite_trees::store::Store;
use sqlite_value::row::Row;
use sqlite_value::value::ValueRef;
use std::alloc::Global;
use synod::{AcceptedEntry, Ballot, Change, Record, Value};

/// Returns the unsigned number in a column.
///
/// Errors: `Corrupt` if there is none.
fn number_at(row: &Row, at: usize) -> Result<u64, StoreError> {
    match row.get(at) {
        ValueRef::Int(n) => Ok(n.cast_unsigned()),
        _ => Err(StoreError::Corrupt),
    }
}

/// Returns the ballot in two columns.
///
/// Errors: `Corrupt` if there is none.
fn ballot_at(row: &Row, at: usize) -> Result<Ballot, StoreError>
    requires { at < 10 }
{
    let round = number_at(row, at)?;
    let Ok(node) = u8::try_from(number_at(row, at + 1)?) else {
        return Err(StoreError::Corrupt);
    };
    Ok(Ballot { round, node })
}

/// Returns the slot of a row, which is its rowid.
///
/// Errors: `Corrupt` if it is none.
fn slot_at(row: &Row) -> Result<u32, StoreError>
    ensures { IfOk result (λ slot. slot < SLOTS) }
{
    match u32::try_from(number_at(row, 0)?) {
        Ok(slot) if slot < SLOTS => Ok(slot),
        _ => Err(StoreError::Corrupt),
    }
}

/// Returns the value that a row of the tree `TEXTS` says; `None` is the no-operation.
///
/// Errors: an allocation fails; `Corrupt` if it says none.
fn value_of<V: Value, C: ValueColumns<V>>(
    alloc: Global,
    row: &Row,
) -> Result<Option<V>, StoreError> {
    if row.len() <= 2 {
        return Ok(None);
    }
    match C::read(alloc, row)? {
        Some(value) => Ok(Some(value)),
        None => Err(StoreError::Corrupt),
    }
}

/// Reads the next accepted entry into the record, or returns false at the end.
fn read_entry<V: Value, C: ValueColumns<V>, S: Store + Drop>(
    alloc: Global,
    tables: &mut Tables<V, C, S>,
    stored: &mut Record<V>,
) -> Result<bool, StoreError>
    requires cursor { IsSome ((S.view tables.old.store).cursors 0) }
    requires trees { IsClean (S.view tables.old.store) → HasTrees (S.view tables.old.store) }
    requires whole { trimmed stored.old.kept.accepted ≡ stored.old.kept.accepted }
    ensures cursor { OnOk result (IsSome ((S.view tables.new.store).cursors 0)) }
    ensures whole { trimmed stored.new.kept.accepted ≡ stored.new.kept.accepted }
    ensures keeps { Keeps S.view S.recovers tables.old.store tables.new.store }
{
    if !tables.read_next()? {
        return Ok(false);
    }
    let slot = slot_at(tables.found())?;
    let ballot = ballot_at(tables.found(), 2)?;
    if !tables.read(TEXTS, slot)? {
        return Err(StoreError::Corrupt);
    }
    let value = value_of::<V, C>(alloc, tables.found())?;
    let entry = AcceptedEntry { ballot, value };
    put_entry(stored, slot, entry)?;
    Ok(true)
}

/// Puts an entry into the record.
fn put_entry<V: Value>(
    stored: &mut Record<V>,
    slot: u32,
    entry: AcceptedEntry<V>,
) -> Result<(), StoreError>
    requires slot { slot < SLOTS }
    requires whole { trimmed stored.old.kept.accepted ≡ stored.old.kept.accepted }
    ensures whole { trimmed stored.new.kept.accepted ≡ stored.new.kept.accepted }
{
    stored.reserve(slot)?;
    stored.apply_change(Some(Change::Entry { slot, entry }));
    Ok(())
}

/// Reads all accepted entries into the record.
fn read_entries<V: Value, C: ValueColumns<V>, S: Store + Drop>(
    alloc: Global,
    tables: &mut Tables<V, C, S>,
    stored: &mut Record<V>,
) -> Result<(), StoreError>
    requires trees { IsClean (S.view tables.old.store) → HasTrees (S.view tables.old.store) }
    requires whole { trimmed stored.old.kept.accepted ≡ stored.old.kept.accepted }
    ensures whole { trimmed stored.new.kept.accepted ≡ stored.new.kept.accepted }
    ensures keeps { Keeps S.view S.recovers tables.old.store tables.new.store }
{
    tables.begin(ACCEPTED)?;
    for _entry in 0..SLOTS {
        if !read_entry(alloc, tables, stored)? {
            return Ok(());
        }
    }
    Ok(())
}

/// Reads the record and the number of changes that the trees say. A caller compares what the record
/// writes with the trees. If there is no row of the node, it returns the record of a new node, and
/// no change.
///
/// Errors: the store or an allocation fails; `Corrupt` if the trees say no record.
pub(crate) fn read_content<V: Value, C: ValueColumns<V>, S: Store + Drop>(
    alloc: Global,
    tables: &mut Tables<V, C, S>,
    stored: &mut Record<V>,
) -> Result<u64, StoreError>
    requires trees { IsClean (S.view tables.old.store) → HasTrees (S.view tables.old.store) }
    requires whole { trimmed stored.old.kept.accepted ≡ stored.old.kept.accepted }
    ensures whole { trimmed stored.new.kept.accepted ≡ stored.new.kept.accepted }
    ensures keeps { Keeps S.view S.recovers tables.old.store tables.new.store }
{
    if !tables.read(NODE, 0)? {
        return Ok(0);
    }
    let promise = ballot_at(tables.found(), 2)?;
    let round = number_at(tables.found(), 4)?;
    let changes = number_at(tables.found(), 5)?;
    read_entries(alloc, tables, stored)?;
    stored.apply_change(Some(Change::Round(round)));
    stored.apply_change(Some(Change::Promise(promise)));
    Ok(changes)
}
