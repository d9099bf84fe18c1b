//! Changes the names, the ends of blocks and the last active statements for one more statement.
//! Undoes the changes of the ends of blocks; `extend` undoes the others.
ghost use Rattle.std.specs.Prelude.{◌≡◌, ◌+◌, ◌^◌, ◌<◌, ◌≤◌, ◌++◌, ◌∷◌, [], length, OnOk, take};
ghost use Rattle.mm_read.specs.declared.stmt.Stmt.{Stmt as Statement};
ghost use Rattle.scope.specs.Active.{label_of};
ghost use Rattle.scope.specs.Declares.{IsRecordedBy, MayDeclare, declared_with};
ghost use Rattle.frame.specs.LastActive.{last_active_of};
ghost use Rattle.frame.specs.Stored.Whole.{AreStored};
ghost use Rattle.frame.specs.Stored.EntryMeanings.{names_in, option_position, statements_of};
ghost use Rattle.frame.specs.Stored.Counts.{HasMoreNames, kind_of, next_last_active};
ghost use Rattle.frame.specs.Stored.Ends.{with_end, AreBlockEnds};

use crate::at_position::last_active_at;
use crate::shape::{has_label, kind};
use crate::storage::Storage;
use entries::{Kind, LastActive};
use mm_read::Stmt;
use scope::{SymbolNumbers, declare_names};
use std::alloc::{AllocError, Global};

/// There are fewer symbols than this. So a hypothesis fits in 32 bits: `number_of` of `entries`
/// adds 2^31 for a `$e`.
const SYMBOL_NUMBERS_LIMIT: usize = 2147483648;

/// Declares the names of the next statement, and appends its position if it has a label. Records
/// the numbers of the symbols of a `$c` or `$v`.
///
/// Errors: an allocation fails, or there are too many symbols; some changes may have been made.
pub fn declare_next(
    alloc: Global,
    storage: &mut Storage,
    stmt: &Stmt,
    recorded: &mut SymbolNumbers,
) -> Result<(), AllocError>
    requires { MayDeclare storage.old.numbering stmt.now }
    ensures grown { HasMoreNames storage.old storage.new }
    ensures few { OnOk result (length (names_in storage.new) < 2 ^ 31) }
    ensures numbering { OnOk result (storage.new.numbering ≡ declared_with storage.old.numbering stmt.now) }
    ensures positions { OnOk result
        (storage.new.positions.items ≡ storage.old.positions.items
        ++ option_position (label_of stmt.now) (length storage.old.entries + 1) []) }
    ensures recorded { OnOk result (IsRecordedBy storage.new.numbering stmt.now recorded.old recorded.new) }
{
    declare_names(&mut storage.numbering, alloc, stmt, recorded)?;
    if storage.numbering.symbol_count() >= SYMBOL_NUMBERS_LIMIT {
        return Err(AllocError);
    }
    if has_label(kind(stmt)) {
        storage.positions.push(storage.entries.len() as u32 + 1)?;
    }
    Ok(())
}

/// Returns the last active statements after one more statement of a kind.
pub fn last_active_after(storage: &Storage, kind: Kind) -> LastActive
    requires { AreStored storage.now }
    ensures { (s : Statement) → kind_of s ≡ kind → result ≡ last_active_of (statements_of storage.now ++ s ∷ []) }
{
    let last_active = storage.last_active;
    match kind {
        Kind::Close => {
            if last_active.block == 0 {
                LastActive {
                    block: 0,
                    essential: 0,
                    variable: 0,
                    disjoint: 0,
                }
            } else {
                last_active_at(storage, last_active.block as usize)
            }
        }
        _ => last_active_with(last_active, kind, storage.entries.len() as u32 + 1),
    }
}

/// Returns the last active statements after a statement of a kind at `at` that is not a `$}`.
fn last_active_with(last_active: LastActive, kind: Kind, at: u32) -> LastActive
    ensures { result ≡ next_last_active last_active at kind }
{
    let mut last_active = last_active;
    match kind {
        Kind::Open => last_active.block = at,
        Kind::Var => last_active.variable = at,
        Kind::Disj => last_active.disjoint = at,
        Kind::Ess => last_active.essential = at,
        _ => {}
    }
    last_active
}

/// Records `at` as the end of the block that opened at `block`, if a statement of this kind ends a
/// block.
pub fn record_end(ends: &mut Vec<u32>, kind: Kind, block: u32, at: u32)
    requires { block ≤ length ends.old.items }
    ensures { ends.new.items ≡ with_end kind block at ends.old.items }
{
    if matches!(kind, Kind::Close) && block != 0 {
        ends[block as usize - 1] = at;
    }
}

/// Removes the entries after the first `len`, the last one first, and with them what they recorded
/// as ends of blocks.
pub fn remove_entries(storage: &mut Storage, len: usize)
    requires stored { AreStored storage.old }
    requires within { len ≤ length storage.old.entries }
    ensures entries { storage.new.entries ≡ take len storage.old.entries }
    ensures ends { AreBlockEnds storage.new.ends.items (take len (statements_of storage.old)) }
    ensures count { length storage.new.ends.items ≡ length storage.old.ends.items }
    ensures names { (storage.new.numbering ≡ storage.old.numbering) × (storage.new.positions ≡ storage.old.positions) }
    ensures floats { storage.new.floats ≡ storage.old.floats }
    ensures disjoints { storage.new.disjoints ≡ storage.old.disjoints }
    ensures variables { storage.new.variables ≡ storage.old.variables }
    ensures last_active { storage.new.last_active ≡ storage.old.last_active }
{
    while storage.entries.len() > len {
        let last = storage.entries.len() - 1;
        let entry = storage.entries.entry(last);
        record_end(
            &mut storage.ends,
            entry.kind,
            entry.before.last_active.block,
            0,
        );
        storage.entries.truncate(last);
    }
}
