//! Finds the mandatory hypotheses of an assertion by the symbols that it uses.
ghost use Rattle.std.specs.Prelude.{◌≡◌, ◌+◌, ◌-◌, ◌≤◌, [], length, take, OnOk};
ghost use Rattle.mm_read.specs.declared.stmt.Stmt.{Stmt as Statement};
ghost use Rattle.names.specs.Codes.{decode};
ghost use Rattle.scope.specs.Active.{expr_of};
ghost use Rattle.frame.specs.Below.{AreBelow};
ghost use Rattle.frame.specs.FrameOf.{hypotheses};
ghost use Rattle.frame.specs.Stored.Whole.{AreStored};
ghost use Rattle.frame.specs.Stored.Hypotheses.{HasMore, In, IsFloatAfter, IsFloatOfSome};
ghost use Rattle.frame.specs.Stored.Hypotheses.{ListsExactly};
ghost use Rattle.frame.specs.Stored.EntryMeanings.{names_in, statements_of};

use crate::at_position::{is_active_at, last_active_at};
use crate::storage::Storage;
use std::alloc::AllocError;

/// Sorts positions in ascending order and removes repetitions.
fn sort_unique(list: &mut Vec<u32>)
    ensures { ListsExactly (λ p. In p list.old.items) list.new.items }
{
    list.sort_unstable();
    list.dedup();
}

/// Appends the position of the `$f` of a symbol that is active at `at`, if there is one.
///
/// Errors: an allocation fails. Cost: a constant, or a binary search.
fn add_float(storage: &Storage, at: usize, code: u32, list: &mut Vec<u32>) -> Result<(), AllocError>
    requires stored { AreStored storage.now }
    requires place { (1 ≤ at) × (at ≤ length (statements_of storage.now) + 1) }
    ensures { OnOk result (HasMore (IsFloatAfter storage.now (at - 1) code) list.old.items list.new.items) }
{
    let Some(float) = storage.floats.stack(code, at).last() else {
        return Ok(());
    };
    if is_active_at(storage, float.position as usize, at) {
        list.push(float.position)?;
    }
    Ok(())
}

/// Appends the positions of the `$f` of the symbols that are active at `at`.
///
/// Errors: an allocation fails. Cost: that of `add_float` for each of them.
fn add_floats(
    storage: &Storage,
    at: usize,
    codes: &[u32],
    list: &mut Vec<u32>,
) -> Result<(), AllocError>
    requires stored { AreStored storage.now }
    requires place { (1 ≤ at) × (at ≤ length (statements_of storage.now) + 1) }
    ensures { OnOk result (HasMore (IsFloatOfSome storage.now (at - 1) codes.now) list.old.items list.new.items) }
{
    for code in codes {
        add_float(storage, at, *code, list)?;
    }
    Ok(())
}

/// Finds the positions of the mandatory hypotheses, in order, of an assertion at `at` with these
/// symbols: the active `$e`, and the active `$f` of the symbols of these and of its own.
///
/// Errors: an allocation fails. Cost: the symbols of the assertion and of the active `$e`, and a
/// sort.
pub fn find_hypotheses(
    storage: &Storage,
    at: usize,
    codes: &[u32],
    list: &mut Vec<u32>,
) -> Result<(), AllocError>
    requires stored { AreStored storage.now }
    requires place { (1 ≤ at) × (at ≤ length (statements_of storage.now) + 1) }
    requires codes { AreBelow (length (names_in storage.now)) codes.now }
    requires empty { list.old.items ≡ [] }
    ensures { (s : Statement) → decode (names_in storage.now) codes.now ≡ expr_of s
        → OnOk result (list.new.items ≡ hypotheses (take (at - 1) (statements_of storage.now)) s) }
{
    add_floats(storage, at, codes, list)?;
    let mut essential = last_active_at(storage, at).essential;
    while essential != 0 {
        let entry = storage.entries.entry(essential as usize - 1);
        list.push(essential)?;
        add_floats(storage, at, entry.symbols, list)?;
        essential = entry.before.last_active.essential;
    }
    sort_unique(list);
    Ok(())
}
