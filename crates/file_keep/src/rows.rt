//! The rows that say a record.
ghost use Rattle.std.specs.Prelude.{◌≡◌, ◌++◌, [], ◌∷◌, pos, OnOk};
ghost use Rattle.sqlite_value.specs.declared.value.Value.TheVariants.{Int};
ghost use Rattle.file_keep.specs.Rows.{number, row_at, ballot_columns, columns_in, node_row_of};
ghost use Rattle.file_keep.specs.Rows.{number_of, text_columns};

use crate::value_columns::ValueColumns;
use sqlite_value::row::Row;
use sqlite_value::value::ValueRef;
use std::alloc::{AllocError, Global};
use synod::{AcceptedEntry, Ballot, Value};

/// The tree of the ballots of the accepted entries, by slot.
pub const ACCEPTED: u32 = 0;

/// The tree of the values of the accepted entries, by slot.
pub const TEXTS: u32 = 1;

/// The tree of one row: the promise, the round last begun, and the number of changes.
pub const NODE: u32 = 2;

/// A tree with a row for each slot that has an accepted entry.
#[derive(Clone, Copy)]
pub(crate) enum SlotTree {
    Accepted,
    Texts,
}

impl SlotTree {
    /// Returns the number of the tree.
    pub fn number(self) -> u32
        ensures { result ≡ number_of self }
    {
        match self {
            SlotTree::Accepted => ACCEPTED,
            SlotTree::Texts => TEXTS,
        }
    }

    /// Writes the row of an accepted entry over `row`.
    pub fn write<V: Value, C: ValueColumns<V>>(
        self,
        alloc: Global,
        row: &mut Row,
        slot: u32,
        entry: &AcceptedEntry<V>,
    ) -> Result<(), AllocError>
        ensures { OnOk result (row.new ≡ row_at slot (columns_in C.columns self entry.now)) }
    {
        match self {
            SlotTree::Accepted => write_ballot(row, slot, entry),
            SlotTree::Texts => write_text::<V, C>(alloc, row, slot, entry),
        }
    }
}

/// Begins a row: its rowid, and NULL for the column of the rowid.
fn begin_row(row: &mut Row, id: u32) -> Result<(), AllocError>
    ensures { OnOk result (row.new ≡ row_at id []) }
{
    row.clear();
    row.push(ValueRef::Int(i64::from(id)))?;
    row.push(ValueRef::Null)
}

/// Appends an unsigned number.
pub fn push_number(row: &mut Row, n: u64) -> Result<(), AllocError>
    ensures { OnOk result (row.new ≡ row.old ++ number n ∷ []) }
{
    row.push(ValueRef::Int(n.cast_signed()))
}

/// Appends a ballot: its round, and its node.
fn push_ballot(row: &mut Row, ballot: Ballot) -> Result<(), AllocError>
    ensures { OnOk result (row.new ≡ row.old ++ number ballot.round ∷ Int (pos ballot.node) ∷ []) }
{
    push_number(row, ballot.round)?;
    row.push(ValueRef::Int(i64::from(ballot.node)))
}

/// Writes the row of an accepted entry in the tree `ACCEPTED` over `row`.
fn write_ballot<V: Value>(
    row: &mut Row,
    slot: u32,
    entry: &AcceptedEntry<V>,
) -> Result<(), AllocError>
    ensures { OnOk result (row.new ≡ row_at slot (ballot_columns entry.now)) }
{
    begin_row(row, slot)?;
    push_ballot(row, entry.ballot)
}

/// Writes the row of an accepted entry in the tree `TEXTS` over `row`.
fn write_text<V: Value, C: ValueColumns<V>>(
    alloc: Global,
    row: &mut Row,
    slot: u32,
    entry: &AcceptedEntry<V>,
) -> Result<(), AllocError>
    ensures { OnOk result (row.new ≡ row_at slot (text_columns C.columns entry.now)) }
{
    begin_row(row, slot)?;
    match &entry.value {
        Some(value) => C::write(value, alloc, row),
        None => Ok(()),
    }
}

/// Writes the row of the tree `NODE` over `row`.
pub(crate) fn write_node(
    row: &mut Row,
    promise: Ballot,
    round: u64,
    changes: u64,
) -> Result<(), AllocError>
    ensures { OnOk result (row.new ≡ node_row_of promise round changes) }
{
    begin_row(row, 0)?;
    push_ballot(row, promise)?;
    push_number(row, round)?;
    push_number(row, changes)
}
