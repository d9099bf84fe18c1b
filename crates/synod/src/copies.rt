//! Copies of changes and records.
ghost use Rattle.std.specs.Prelude.{◌≡◌, ◌<◌, Some, None, OnOk, IfOk};
ghost use Rattle.slots.specs.FiniteMap.{entry_at, trimmed};
ghost use Rattle.slots.specs.declared.slots.TheConstants.{SLOTS};
ghost use Rattle.synod.specs.Record.{HasCapacityFor};
ghost use Rattle.synod.specs.Copies.{with_copied_slot};

use crate::change::{AcceptedEntry, Change};
use crate::record::Record;
use crate::value::{Value, copy_value};
use slots::SLOTS;
use std::alloc::{AllocError, Global};

/// Returns a copy of a change, and reserves capacity for it in the record.
///
/// Errors: an allocation fails, or the slot is not below `SLOTS`.
pub fn ready_change<V: Value>(
    stored: &mut Record<V>,
    change: &Change<V>,
) -> Result<Change<V>, AllocError>
    ensures change { IfOk result (λ copy. copy ≡ change.now) }
    ensures capacity { OnOk result (HasCapacityFor stored.new.capacity (Some change.now)) }
    ensures kept { stored.new.kept ≡ stored.old.kept }
{
    match change {
        Change::Round(round) => Ok(Change::Round(*round)),
        Change::Promise(ballot) => Ok(Change::Promise(*ballot)),
        Change::Entry { slot, entry } => {
            if *slot >= SLOTS {
                return Err(AllocError);
            }
            stored.reserve(*slot)?;
            Ok(Change::Entry {
                slot: *slot,
                entry: copy_entry(entry)?,
            })
        }
    }
}

/// Returns a copy of a record, whose list of accepted entries may not end in an empty slot.
///
/// Errors: an allocation fails. Cost: the slots up to the last entry, each value copied once.
pub fn copy_record<V: Value>(alloc: Global, source: &Record<V>) -> Result<Record<V>, AllocError>
    requires { trimmed source.now.kept.accepted ≡ source.now.kept.accepted }
    ensures { IfOk result (λ copy. copy.kept ≡ source.now.kept) }
{
    let mut copy = Record::new(alloc);
    for slot in 0..source.top() {
        copy_slot(&mut copy, source, slot)?;
    }
    copy.apply_change(Some(Change::Round(source.round())));
    copy.apply_change(Some(Change::Promise(source.promise())));
    Ok(copy)
}

/// Copies the entry of a slot, if there is one.
fn copy_slot<V: Value>(
    copy: &mut Record<V>,
    source: &Record<V>,
    slot: u32,
) -> Result<(), AllocError>
    requires { slot < SLOTS }
    ensures { OnOk result
        (copy.new.kept.accepted
        ≡ with_copied_slot copy.old.kept.accepted slot (entry_at source.now.kept.accepted slot)) }
{
    let Some(entry) = source.get(slot) else {
        return Ok(());
    };
    let entry = copy_entry(entry)?;
    copy.reserve(slot)?;
    copy.apply_change(Some(Change::Entry { slot, entry }));
    Ok(())
}

/// Returns a copy of an accepted entry.
fn copy_entry<V: Value>(entry: &AcceptedEntry<V>) -> Result<AcceptedEntry<V>, AllocError>
    ensures { IfOk result (λ copy. copy ≡ entry.now) }
{
    Ok(AcceptedEntry {
        ballot: entry.ballot,
        value: copy_value(&entry.value)?,
    })
}
