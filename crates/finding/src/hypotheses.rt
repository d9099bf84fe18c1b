//! Keeps track of the active `$e` that have a pattern.
ghost use Rattle.std.specs.Prelude.{◌≡◌, ◌↔◌, ◌+◌, ◌++◌, ◌∷◌, [], ◌<◌, ◌≤◌, ℕ, length, take};
ghost use Rattle.std.specs.Prelude.{IsFalse, IsTrue, OnOk, Some};
ghost use Rattle.mm_read.specs.Statements.{Database};
ghost use Rattle.scope.specs.Active.{stmt_at};
ghost use Rattle.finding.specs.Essentials.{AreMatchingEssentials, IsTrimmedLength};
ghost use Rattle.finding.specs.Essentials.{IsActiveHypothesis};

use crate::Pattern;
use crate::expressions::{essential_expr, has_pattern};
use frame::{Frames, Meaning};
use mm_read::Stmt;
use std::alloc::{AllocError, Global};

/// Appends the position of a statement to those of the `$e` that have the pattern, if the statement
/// is such an `$e`.
///
/// Errors: an allocation fails. Cost: that of `has_pattern`.
pub(crate) fn record_essential(
    alloc: Global,
    pattern: &Pattern<'_>,
    essentials: &mut Vec<usize>,
    at: usize,
    statement: &Stmt,
) -> Result<(), AllocError>
    ensures { (S : Database) (n : ℕ) → n + 1 ≡ at → stmt_at S at ≡ Some statement.now
        → AreMatchingEssentials pattern.now S n essentials.old.items
        → OnOk result (AreMatchingEssentials pattern.now S at essentials.new.items) }
{
    let matches = has_pattern(alloc, pattern, essential_expr(statement))?;
    push_position_if(essentials, matches, at)
}

/// Appends a position if `condition` is true.
fn push_position_if(
    positions: &mut Vec<usize>,
    condition: bool,
    at: usize,
) -> Result<(), AllocError>
    ensures pushed { IsTrue condition → OnOk result (positions.new.items ≡ positions.old.items ++ at ∷ []) }
    ensures same { IsFalse condition → OnOk result (positions.new.items ≡ positions.old.items) }
{
    if condition {
        positions.push(at)?;
    }
    Ok(())
}

/// Removes positions from the end until the last one is that of a hypothesis active at `at`.
/// Returns whether any are left.
///
/// Cost: the number of positions removed, and a constant.
pub(crate) fn trim_to_active(frames: &Frames, at: usize, positions: &mut Vec<usize>) -> bool
    requires position { (1 ≤ at) × (at ≤ length frames.now.statements) }
    ensures trimmed { IsTrimmedLength frames.now.statements at positions.old.items
        (length positions.new.items) }
    ensures prefix { positions.new.items
        ≡ take (length positions.new.items) positions.old.items }
    ensures some { IsTrue result ↔ 0 < length positions.new.items }
{
    let remaining = trimmed_len(frames, at, positions.as_slice());
    positions.truncate(remaining);
    remaining > 0
}

/// Returns the length of the list up to the last position that is that of a hypothesis active at
/// `at`, that position included, or 0 if there is none.
fn trimmed_len(frames: &Frames, at: usize, positions: &[usize]) -> usize
    requires position { (1 ≤ at) × (at ≤ length frames.now.statements) }
    ensures { IsTrimmedLength frames.now.statements at positions.now result }
{
    let mut remaining = positions.len();
    while remaining > 0 {
        if is_active(frames, at, positions[remaining - 1]) {
            return remaining;
        }
        remaining -= 1;
    }
    0
}

/// Returns whether the statement at `position` is a hypothesis that is active at `at`.
fn is_active(frames: &Frames, at: usize, position: usize) -> bool
    requires position { (1 ≤ at) × (at ≤ length frames.now.statements) }
    ensures { IsTrue result ↔ IsActiveHypothesis frames.now.statements at position }
{
    match frames.meaning(at, position) {
        Meaning::Hypothesis(_) => true,
        Meaning::Assertion => false,
        Meaning::Nothing => false,
    }
}
