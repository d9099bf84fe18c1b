//! Chooses the positions that a section of a page lists.
ghost use Rattle.std.specs.Prelude.{◌≡◌, ◌++◌, flat_map, IfOk, OnOk};
ghost use Rattle.proof_pages.specs.Sections.{chosen};
ghost use Rattle.proof_pages.specs.Partitions.{is_essential_at, as_wanted, chosen_essential};
ghost use Rattle.proof_pages.specs.Partitions.{chosen_marked, chosen_typecode, first_or_zero};
ghost use Rattle.proof_pages.specs.Partitions.{typecode_at};
ghost use Rattle.proof_pages.specs.Colours.{expr_numbers};

use crate::opening::is_marked;
use frame::Frames;
use mm_read::Stmt;
use std::alloc::{AllocError, Global};

/// Returns those of the positions at which there is a `$e`, or with `wanted` false the others, in
/// order.
///
/// Errors: an allocation fails. Cost: the number of positions.
pub(crate) fn choose_essential(
    alloc: Global,
    statements: &[Stmt],
    wanted: bool,
    positions: &[u32],
) -> Result<Vec<u32>, AllocError>
    ensures { IfOk result (λ list. list.items
        ≡ flat_map (chosen_essential statements.now wanted) positions.now) }
{
    let mut list = Vec::new(alloc);
    for position in positions {
        let choice = as_wanted(wanted, is_essential_at(statements, *position as usize));
        push_chosen(&mut list, choice, *position)?;
    }
    Ok(list)
}

/// Returns those of the positions that are marked, or with `wanted` false the others, in order.
///
/// Errors: an allocation fails. Cost: the number of positions.
pub(crate) fn choose_marked(
    alloc: Global,
    marks: &[bool],
    wanted: bool,
    positions: &[u32],
) -> Result<Vec<u32>, AllocError>
    ensures { IfOk result (λ list. list.items ≡ flat_map (chosen_marked marks.now wanted) positions.now) }
{
    let mut list = Vec::new(alloc);
    for position in positions {
        let choice = as_wanted(wanted, is_marked(marks, *position as usize));
        push_chosen(&mut list, choice, *position)?;
    }
    Ok(list)
}

/// Returns those of the positions whose statements have a typecode, as `typecode_at` tells it, or
/// with `wanted` false the others, in order.
///
/// Errors: an allocation fails. Cost: the number of positions.
pub(crate) fn choose_same_typecode(
    alloc: Global,
    frames: &Frames,
    typecode: u64,
    wanted: bool,
    positions: &[u32],
) -> Result<Vec<u32>, AllocError>
    ensures { IfOk result (λ list. list.items
        ≡ flat_map (chosen_typecode frames.now.names frames.now.statements typecode wanted)
        positions.now) }
{
    let mut list = Vec::new(alloc);
    for position in positions {
        let is_same = typecode_at(frames, *position as usize) == typecode;
        push_chosen(&mut list, as_wanted(wanted, is_same), *position)?;
    }
    Ok(list)
}

/// Appends a position if it is chosen.
fn push_chosen(list: &mut Vec<u32>, choice: bool, position: u32) -> Result<(), AllocError>
    ensures { OnOk result (list.new.items ≡ list.old.items ++ chosen choice position) }
{
    if choice {
        list.push(position)?;
    }
    Ok(())
}

/// Returns a value, or its negation if `wanted` is false.
fn as_wanted(wanted: bool, value: bool) -> bool
    ensures { result ≡ as_wanted wanted value }
{
    if wanted { value } else { !value }
}

/// Returns whether there is a `$e` at a position.
fn is_essential_at(statements: &[Stmt], position: usize) -> bool
    ensures { result ≡ is_essential_at statements.now position }
{
    if position == 0 || position > statements.len() {
        return false;
    }
    match &statements[position - 1] {
        Stmt::Ess { .. } => true,
        _ => false,
    }
}

/// Returns one more than the first symbol of the statement at a position, or 0 if it has no
/// expression.
pub(crate) fn typecode_at(frames: &Frames, position: usize) -> u64
    ensures { result ≡ typecode_at frames.now.names frames.now.statements position }
{
    first_or_zero(expr_at(frames, position))
}

/// Returns one more than the first symbol of an expression, or 0 if it is empty.
fn first_or_zero(expr: &[u32]) -> u64
    ensures { result ≡ first_or_zero expr.now }
{
    match expr.split_first() {
        Some((typecode, _)) => *typecode as u64 + 1,
        None => 0,
    }
}

/// Returns the symbol numbers of the expression of the statement at a position, none if it has no
/// expression.
pub(crate) fn expr_at(frames: &Frames, position: usize) -> &[u32]
    ensures { result.now ≡ expr_numbers frames.now.names frames.now.statements position }
{
    if position == 0 || position > frames.len() {
        return &[];
    }
    // The clause of this call says that the names of the symbols are distinct.
    let _pairs = frames.active_pairs(position);
    frames.expr(position)
}
