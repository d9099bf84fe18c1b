//! The statements of a database as numbers, by position.
ghost use Rattle.std.specs.Prelude.{◌≡◌, ◌≤◌, ◌<◌, ◌+◌, ◌^◌, ◌++◌, ◌∷◌, [], length, take};
ghost use Rattle.std.specs.Prelude.{slice_get, Some, OnOk, OnErr, IfOk, IfSome, IfNone, false};
ghost use Rattle.entries.specs.Entries.{Entry, IsEntry, IsWholeView, AreShapedParts, assertion_of};
ghost use Rattle.entries.specs.Entries.{entry_by};
ghost use Rattle.entries.specs.Stored.Records.{IsPlaced, IsStored, has_parts, layout_in, record_of};
ghost use Rattle.entries.specs.Stored.Records.{numbers_by, numbers_of};
ghost use Rattle.entries.specs.Stored.Spans.{Extends};

use crate::assertion_view::{AssertionView, Hypotheses};
use crate::buffer_part::{BufferPart, item, part, to_u32};
use crate::entry_header::{EntryHeader, EntryRef};
use crate::groups::Groups;
use crate::layout::{Layout, assertion_layout, counts, layout_by_counts};
use crate::parts::AssertionParts;
use crate::room::give_back;
use crate::statement_record::StatementRecord;
use std::alloc::{AllocError, Global};
use std::marker::Model;

/// Statements as numbers. Contracts see the list of them, with plain lists for their parts.
///
/// Inside, a statement is one small record, and the numbers of all statements are in one buffer, so
/// that a citation reads contiguous memory. Groups, which few assertions have, have a buffer of
/// their own.
#[derive(Drop)]
pub struct Entries {
    records: Vec<StatementRecord>,
    numbers: Vec<u32>,
    groups: Vec<BufferPart>,
}

/// The stored form of one statement: its record, its numbers, the layout of its parts among them,
/// and its groups. No part is read before it is used.
#[derive(Clone, Copy, Drop)]
struct Stored<'a> {
    statement_record: StatementRecord,
    numbers: &'a [u32],
    layout: Layout,
    groups: &'a [BufferPart],
}

impl Model for Entries {
    ghost use Rattle.std.specs.Prelude.{List};
    ghost use Rattle.entries.specs.Entries.{Entry};
    ghost use Rattle.entries.specs.Stored.Records.{entries_of, ArePacked};

    ghost Value = { List Entry };

    ghost view = { λ a. entries_of a.numbers.items a.groups.items a.records.items };

    ghost invariant = { λ a. ArePacked a.numbers.items a.groups.items a.records.items };
}

impl Entries {
    /// Returns an empty list.
    pub fn new(alloc: Global) -> Entries
        ensures { result ≡ [] }
    {
        Entries {
            records: Vec::new(alloc),
            numbers: Vec::new(alloc),
            groups: Vec::new(alloc),
        }
    }

    /// Returns how many statements there are.
    #[tactic(auto, using(crate::proofs::StatementRecordLemmas::within))]
    pub fn len(&self) -> usize
        ensures len { result ≡ length self.now }
        ensures few { result + 1 < 2 ^ 32 }
    {
        self.records.len()
    }

    /// Returns the kind, size and symbols of the statement at an index, from 0, and the state
    /// before it.
    #[inline(always)]
    pub fn entry(&self, index: usize) -> EntryRef<'_>
        requires { index < length self.now }
        ensures { IsEntry self.now index result }
    {
        let Stored {
            statement_record,
            numbers,
            layout,
            ..
        } = self.stored(index);
        EntryRef {
            kind: statement_record.kind,
            size: layout.size,
            before: statement_record.before,
            symbols: part(numbers, layout.symbols, layout.hypotheses),
        }
    }

    /// Returns the positions of the hypotheses of the statement at an index.
    pub fn hypotheses(&self, index: usize) -> &[u32]
        requires { index < length self.now }
        ensures { (e : Entry) → slice_get self.now index ≡ Some e → result.now ≡ e.assertion.hypotheses }
    {
        let Stored {
            numbers,
            layout,
            ..
        } = self.stored(index);
        part(numbers, layout.hypotheses, layout.grouped_variables)
    }

    /// Returns whether the parts of the statement at an index are whole, as `AssertionParts` says.
    pub fn is_whole(&self, index: usize) -> bool
        requires { index < length self.now }
        ensures { (e : Entry) → slice_get self.now index ≡ Some e → result ≡ e.assertion.whole }
    {
        self.stored(index).statement_record.whole
    }

    /// Returns the assertion at an index as it is stored: its symbols and its parts, without the
    /// positions of its hypotheses. Returns `None` if its parts are not whole.
    pub fn whole_view(&self, index: usize) -> Option<AssertionView<'_>>
        requires { index < length self.now }
        ensures parts { (e : Entry) → slice_get self.now index ≡ Some e → IfSome result (IsWholeView e) }
        ensures none { (e : Entry) → slice_get self.now index ≡ Some e → IfNone result (e.assertion.whole ≡ false) }
    {
        let Stored {
            statement_record,
            numbers,
            layout,
            groups,
            ..
        } = self.stored(index);
        if !statement_record.whole {
            return None;
        }
        Some(AssertionView {
            typecodes: part(numbers, layout.typecodes, layout.numbered_hypotheses),
            hypotheses: Hypotheses::new(part(numbers, layout.numbered_hypotheses, layout.symbols)),
            conclusion: part(numbers, layout.symbols, layout.hypotheses),
            pairs_listed: true,
            pairs: Groups::new(groups, part(numbers, layout.grouped_variables, layout.end)),
        })
    }

    /// Returns the stored form of the statement at an index.
    #[inline(always)]
    fn stored(&self, index: usize) -> Stored<'_>
        requires { index < length self.now }
        ensures { IsStored (slice_get self.now index) result }
    {
        let statement_record = item(&self.records, index);
        let (numbers, layout) = numbers_at(&self.records, &self.numbers, index, statement_record);
        let from = statement_record.groups_from as usize;
        let groups = part(&self.groups, from, from + layout.group_count);
        Stored {
            statement_record,
            numbers,
            layout,
            groups,
        }
    }

    /// Appends a statement.
    ///
    /// Errors: an allocation fails, or a count no longer fits 32 bits; the list is then unchanged.
    /// Cost: amortized, the statement's size.
    pub fn push(
        &mut self,
        header: EntryHeader,
        parts: &AssertionParts<'_>,
    ) -> Result<(), AllocError>
        requires { AreShapedParts parts.now }
        ensures added { OnOk result
            (self.new ≡ self.old ++ entry_by header parts.now.symbols.now (assertion_of parts.now) ∷ []) }
        ensures same { OnErr result (self.new ≡ self.old) }
    {
        let count = self.records.len();
        if count + 2 >= u32::MAX as usize {
            return Err(AllocError);
        }
        let from = self.numbers.len();
        let groups = self.groups.len();
        let added = add(
            &mut self.records,
            &mut self.numbers,
            &mut self.groups,
            header,
            parts,
        );
        if added.is_err() {
            self.numbers.truncate(from);
            self.groups.truncate(groups);
        }
        added
    }

    /// Truncates to the first `len` statements. Does not allocate.
    pub fn truncate(&mut self, len: usize)
        ensures { self.new ≡ take len self.old }
    {
        if len < self.records.len() {
            let first = item(&self.records, len);
            self.numbers.truncate(first.from as usize);
            self.groups.truncate(first.groups_from as usize);
            self.records.truncate(len);
        }
    }

    /// Frees unused memory, as `give_back` does and at its cost.
    pub fn shrink(&mut self)
        ensures { self.new ≡ self.old }
    {
        give_back(&mut self.records);
        give_back(&mut self.numbers);
        give_back(&mut self.groups);
    }
}

/// Returns the numbers of the statement at an index, which has this record, and the layout of its
/// parts among them.
#[inline(always)]
fn numbers_at<'a>(
    records: &[StatementRecord],
    numbers: &'a [u32],
    index: usize,
    statement_record: StatementRecord,
) -> (&'a [u32], Layout)
    requires within { index < length records.now }
    requires placed { IsPlaced numbers.now statement_record (slice_get records.now (index + 1)) }
    ensures numbers { result.0.now ≡ numbers_by numbers.now statement_record (slice_get records.now (index + 1)) }
    ensures layout { result.1 ≡ layout_in statement_record.has_parts result.0.now }
{
    if statement_record.has_parts {
        let rest = part(numbers, statement_record.from as usize, numbers.len());
        let layout = assertion_layout(rest);
        return (part(rest, 0, layout.end), layout);
    }
    let end = match records.get(index + 1) {
        Some(next) => next.from as usize,
        None => numbers.len(),
    };
    let from = statement_record.from as usize;
    (
        part(numbers, from, end),
        layout_by_counts(0, 0, end - from, 0, 0, 0),
    )
}

/// Appends a statement's groups, numbers and record. If it fails, `records` is unchanged, but the
/// other buffers may have more items.
fn add(
    records: &mut Vec<StatementRecord>,
    numbers: &mut Vec<u32>,
    groups: &mut Vec<BufferPart>,
    header: EntryHeader,
    parts: &AssertionParts<'_>,
) -> Result<(), AllocError>
    ensures added { OnOk result
        (numbers.new.items ≡ numbers.old.items
        ++ numbers_of (has_parts header.size parts.now) header.size parts.now) }
    ensures groups { OnOk result (groups.new.items ≡ groups.old.items ++ parts.now.groups.now) }
    ensures last { OnOk result
        (records.new.items ≡ records.old.items
        ++ record_of header parts.now (length numbers.old.items) (length groups.old.items) ∷ []) }
    ensures same { OnErr result (records.new.items ≡ records.old.items) }
    ensures more { Extends numbers.old.items numbers.new.items }
    ensures more_groups { Extends groups.old.items groups.new.items }
{
    let from = to_u32(numbers.len())?;
    let groups_from = to_u32(groups.len())?;
    let has_parts = has_parts(header.size, parts);
    append(groups, parts.groups)?;
    add_numbers(numbers, header.size, parts, has_parts)?;
    if records.len() == records.capacity() {
        reserve_ahead(records);
    }
    records.push(StatementRecord {
        from,
        kind: header.kind,
        has_parts,
        whole: parts.whole,
        groups_from,
        before: header.before,
    })?;
    Ok(())
}

/// Returns whether a statement is stored with parts.
fn has_parts(size: u64, parts: &AssertionParts<'_>) -> bool
    ensures { result ≡ has_parts size parts.now }
{
    if size > 0 {
        return true;
    }
    parts.hypotheses.len() + parts.groups.len() > 0
}

/// Appends the numbers of a statement: its counts, parts and symbols if it has parts, else its
/// symbols alone.
fn add_numbers(
    numbers: &mut Vec<u32>,
    size: u64,
    parts: &AssertionParts<'_>,
    has_parts: bool,
) -> Result<(), AllocError>
    ensures added { OnOk result (numbers.new.items ≡ numbers.old.items ++ numbers_of has_parts size parts.now) }
    ensures more { Extends numbers.old.items numbers.new.items }
{
    if !has_parts {
        return append(numbers, parts.symbols);
    }
    append_both(numbers, &counts(size, parts)?, parts.typecodes)?;
    append_both(numbers, parts.numbered_hypotheses, parts.symbols)?;
    append_both(numbers, parts.hypotheses, parts.grouped_variables)
}

/// Appends both lists.
#[inline(always)]
fn append_both(buffer: &mut Vec<u32>, first: &[u32], second: &[u32]) -> Result<(), AllocError>
    ensures ok { OnOk result (buffer.new.items ≡ (buffer.old.items ++ first.now) ++ second.now) }
    ensures grows { Extends buffer.old.items buffer.new.items }
{
    append(buffer, first)?;
    append(buffer, second)
}

/// Appends items.
#[inline(always)]
fn append<T: Copy>(buffer: &mut Vec<T>, items: &[T]) -> Result<(), AllocError>
    ensures ok { OnOk result (buffer.new.items ≡ buffer.old.items ++ items.now) }
    ensures err { OnErr result (buffer.new.items ≡ buffer.old.items) }
    ensures grows { Extends buffer.old.items buffer.new.items }
{
    if items.is_empty() {
        return Ok(());
    }
    if buffer.capacity() - buffer.len() < items.len() {
        reserve_ahead(buffer);
    }
    buffer.extend_from_slice(items)?;
    Ok(())
}

/// Reserves capacity for fifteen times as many further items as the buffer has, so that a growing
/// buffer is seldom copied. Unused capacity is not written. If that allocation fails, the capacity
/// stays.
#[cold]
fn reserve_ahead<T>(buffer: &mut Vec<T>)
    ensures { buffer.new.items ≡ buffer.old.items }
{
    let _ = buffer.reserve(buffer.len().saturating_mul(15));
}
