//! The statements of a text that are left out since they break a rule: why each does, and what
//! depends on them.
ghost use Rattle.std.specs.Prelude.{◌≤◌, length, IfOk};

use crate::broken_rule::{RuleContext, explain_open_block, explain_statement};
use crate::statement_symbols::{label_of, symbol_at};
use crate::text_tokens::TextTokens;
use crate::written_lines::{Lines, MAX_BYTES};
use mm_read::Stmt;
use std::alloc::{AllocError, Global};
use unproved::{LeftOut, LegalPart};

/// Returns the lines that explain which rule the statement at an index breaks, among those that are
/// left out of a text, at most 65,536 bytes. The tokens are those of its statements.
///
/// Errors: those of `rule_violation::violation_of`. Cost: that of `rule_violation::violation_of`,
/// and a pass over the text.
pub fn explain_left_out(
    alloc: Global,
    name: Option<&str>,
    tokens: &TextTokens<'_>,
    part: &LegalPart,
    index: usize,
) -> Result<Vec<u8>, AllocError>
    ensures short { IfOk result (λ lines. length lines.items ≤ MAX_BYTES) }
{
    let mut lines = Lines::new(alloc, name, 0);
    push_reason(alloc, &mut lines, tokens, part, index);
    lines.into_bytes()
}

/// Writes what `explain_left_out` returns.
fn push_reason(
    alloc: Global,
    lines: &mut Lines<'_>,
    tokens: &TextTokens<'_>,
    part: &LegalPart,
    index: usize,
) {
    let left_out = part.left_out.as_slice();
    let Some(left) = left_out.get(index) else {
        return;
    };
    let kept = part.database.statements();
    let before = left.position.saturating_sub(index).saturating_sub(1);
    let context = RuleContext {
        tokens,
        earlier: kept.get(..before).unwrap_or(kept),
        left_out: left_out.get(..index).unwrap_or(left_out),
        statement: left.position,
        rule: left.rule,
    };
    explain_statement(alloc, lines, &context, &left.statement);
}

/// Returns the lines that explain which block is open at the end of the statements that are kept of
/// a text, at most 65,536 bytes. The tokens are those of its statements.
///
/// Errors: an allocation fails. Cost: a pass over the text.
pub fn explain_open_end(
    alloc: Global,
    name: Option<&str>,
    tokens: &TextTokens<'_>,
    part: &LegalPart,
) -> Result<Vec<u8>, AllocError>
    ensures short { IfOk result (λ lines. length lines.items ≤ MAX_BYTES) }
{
    let mut lines = Lines::new(alloc, name, 0);
    let statements = part.database.statements();
    let count = statements.len().saturating_sub(part.open_blocks);
    let kept = statements.get(..count).unwrap_or(statements);
    let left_out = part.left_out.as_slice();
    explain_open_block(&mut lines, tokens, kept, left_out);
    lines.into_bytes()
}

/// Writes where a statement that is left out has a name as its label, or as a symbol that it
/// declares or gives a type, if one does.
pub(crate) fn push_left_out(
    lines: &mut Lines<'_>,
    tokens: &TextTokens<'_>,
    left_out: &[LeftOut],
    name: &[u8],
) {
    for left in left_out {
        if introduces(&left.statement, name) {
            lines.push(b"  the statement at ");
            lines.push_place(tokens.text(), tokens.start_of(left.position, 1));
            lines.push(b" has it, and is left out\n");
            return;
        }
    }
}

/// Returns whether a statement has a name as its label, or declares it or gives it a type.
fn introduces(stmt: &Stmt, name: &[u8]) -> bool {
    match stmt {
        Stmt::Const(names) => names.iter().any(|other| name == other),
        Stmt::Var(names) => names.iter().any(|other| name == other),
        Stmt::Float { .. } => label_of(stmt) == name || symbol_at(stmt, 1) == name,
        Stmt::Ess { .. } | Stmt::Axiom { .. } | Stmt::Prove { .. } => label_of(stmt) == name,
        _ => false,
    }
}
