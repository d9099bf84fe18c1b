//! The line of an assertion with its mandatory `$e`.
ghost use Rattle.std.specs.Prelude.{◌≡◌, ◌+◌, ◌++◌, option_map, true, OnOk, IsTrue, Some};
ghost use Rattle.scope.specs.Active.{bares, is_assertion, stmt_at};
ghost use Rattle.finding.specs.Matching.{essential_at};
ghost use Rattle.finding.specs.Lines.{is_still_first, line_with_essentials, list_end};
ghost use Rattle.finding.specs.Lines.{listed_essential, listed_essentials, listed_expr};

use crate::expressions::essential_expr;
use crate::lines::{push_expr_end, push_label_start};
use crate::query::SearchedDatabase;
use mm_lex::Words;
use mm_read::Stmt;
use std::alloc::{AllocError, Global};

/// Appends the line of the assertion at an index: its label, its mandatory `$e` and its expression.
///
/// Errors: an allocation fails. Cost: the size of the frame and of the line.
pub(crate) fn push_line_with_essentials(
    alloc: Global,
    lines: &mut Vec<u8>,
    searched: &SearchedDatabase<'_>,
    index: usize,
    statement: &Stmt,
) -> Result<(), AllocError>
    requires same { searched.now.frames.now.statements ≡ bares searched.now.statements.now }
    requires stands { stmt_at searched.now.statements.now (index + 1) ≡ Some statement.now }
    requires assertion { IsTrue (is_assertion statement.now) }
    ensures { OnOk result (lines.new.items ≡ lines.old.items
        ++ line_with_essentials searched.now.statements.now index statement.now) }
{
    let mut positions = Vec::new(alloc);
    searched.frames.mandatory(index + 1, &mut positions)?;
    push_label_start(lines, statement)?;
    push_essentials(lines, searched.statements, positions.as_slice())?;
    push_expr_end(lines, statement)
}

/// Appends the expressions of the `$e` at these positions, with ` & ` between two, and ` => ` after
/// them if there are any.
#[tactic(auto, using(crate::proofs::EssentialLineLemmas::essentials_on))]
fn push_essentials(
    lines: &mut Vec<u8>,
    statements: &[Stmt],
    positions: &[u32],
) -> Result<(), AllocError>
    ensures { OnOk result (lines.new.items
        ≡ lines.old.items ++ listed_essentials statements.now true positions.now) }
{
    let mut is_first = true;
    let mut rest = positions;
    while let Some((position, others)) = rest.split_first() {
        let expr = essential_at(statements, *position as usize);
        push_essential(lines, is_first, expr)?;
        is_first = is_still_first(is_first, expr);
        rest = others;
    }
    push_list_end(lines, is_first)
}

/// Appends ` => `, unless the list is empty.
fn push_list_end(lines: &mut Vec<u8>, is_empty: bool) -> Result<(), AllocError>
    ensures { OnOk result (lines.new.items ≡ lines.old.items ++ list_end is_empty) }
{
    if is_empty {
        Ok(())
    } else {
        lines.extend_from_slice(b" => ")
    }
}

/// Appends an expression of the list, if there is one.
fn push_essential(
    lines: &mut Vec<u8>,
    is_first: bool,
    expr: Option<&Words>,
) -> Result<(), AllocError>
    ensures { OnOk result (lines.new.items
        ≡ lines.old.items ++ listed_essential is_first (option_map (λ e. e.now) expr.entry)) }
{
    match expr {
        Some(expr) => push_listed(lines, is_first, expr),
        None => Ok(()),
    }
}

/// Appends an expression of the list.
fn push_listed(lines: &mut Vec<u8>, is_first: bool, expr: &Words) -> Result<(), AllocError>
    ensures { OnOk result (lines.new.items ≡ lines.old.items ++ listed_expr is_first expr.now) }
{
    if !is_first {
        lines.extend_from_slice(b" & ")?;
    }
    lines.extend_from_slice(expr.as_text())
}

/// Returns whether the list is still empty.
fn is_still_first(is_first: bool, expr: Option<&Words>) -> bool
    ensures { result ≡ is_still_first is_first (option_map (λ e. e.now) expr.entry) }
{
    match expr {
        Some(_) => false,
        None => is_first,
    }
}

/// Returns the expression of the `$e` at a position, if there is one.
fn essential_at(statements: &[Stmt], position: usize) -> Option<&Words>
    ensures { option_map (λ e. e.now) result ≡ essential_at statements.now position }
{
    if position == 0 || position > statements.len() {
        return None;
    }
    essential_expr(&statements[position - 1])
}
