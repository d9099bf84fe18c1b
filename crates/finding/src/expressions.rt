//! Searches an expression for a pattern.
ghost use Rattle.std.specs.Prelude.{◌≡◌, ◌↔◌, IfOk, IsTrue, map, option_map};
ghost use Rattle.finding.specs.Matching.{HasPattern, assertion_expr, essential_expr};

use crate::Pattern;
use mm_lex::Words;
use mm_read::Stmt;
use std::alloc::{AllocError, Global};

/// Returns whether there is an expression and it has the pattern.
///
/// Errors: an allocation fails. Cost: at most the size of the expression times that of the pattern.
pub(crate) fn has_pattern(
    alloc: Global,
    pattern: &Pattern<'_>,
    expr: Option<&Words>,
) -> Result<bool, AllocError>
    ensures { IfOk result (λ is. IsTrue is
        ↔ HasPattern pattern.now (option_map (λ e. e.now) expr.entry)) }
{
    let Some(expr) = expr else {
        return Ok(false);
    };
    let symbols = symbols_of(alloc, expr)?;
    Ok(pattern.is_in(symbols.as_slice()))
}

/// Returns the symbols of an expression.
fn symbols_of(alloc: Global, expr: &Words) -> Result<Vec<&[u8]>, AllocError>
    ensures { IfOk result (λ symbols. map (λ s. s.now) symbols.items ≡ expr.now) }
{
    let mut symbols = Vec::new(alloc);
    for symbol in expr.iter() {
        symbols.push(symbol)?;
    }
    Ok(symbols)
}

/// Returns the expression of a statement, if it is an assertion.
pub(crate) fn assertion_expr(statement: &Stmt) -> Option<&Words>
    ensures { option_map (λ e. e.now) result ≡ assertion_expr statement.now }
{
    match statement {
        Stmt::Axiom { expr, .. } | Stmt::Prove { expr, .. } => Some(expr),
        _ => None,
    }
}

/// Returns the expression of a statement, if it is an `$e`.
pub(crate) fn essential_expr(statement: &Stmt) -> Option<&Words>
    ensures { option_map (λ e. e.now) result ≡ essential_expr statement.now }
{
    match statement {
        Stmt::Ess { expr, .. } => Some(expr),
        _ => None,
    }
}
