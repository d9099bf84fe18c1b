//! Explains the refusals of a library with a limit on work: a text counts too much, or leaves a
//! `$e` or `$d` outside all blocks.
ghost use Rattle.std.specs.Prelude.{◌≡◌, IfSome};
ghost use Rattle.frame.specs.FrameOf.{HasAssertion};
ghost use Rattle.scope.specs.Active.{is_assertion};

use crate::text_tokens::TextTokens;
use crate::written_lines::Lines;
use mm_read::{ReadFault, Stmt, read};
use std::alloc::{AllocError, Global};
use unproved::{LegalDatabase, close_blocks};

/// The work of a name: of a symbol that a `$c` or `$v` lists, or of a label.
const NAME_WORK: u64 = 64;

/// Writes what counts more than the limit: the bytes of the text, if `statement` is 0; else these
/// and its statements up to this one, or also the proofs up to that of this `$p`.
pub(crate) fn explain_too_costly(
    alloc: Global,
    lines: &mut Lines<'_>,
    text: &[u8],
    statement: usize,
    limit: u64,
) {
    if statement == 0 {
        lines.push(b"the bytes of the text alone count");
    } else if let Some(tokens) = lines.ok_or_fail(TextTokens::new(alloc, text)) {
        push_costly_statement(alloc, lines, &tokens, statement, limit);
    }
    lines.push(b" more than ");
    lines.push_number(limit as usize);
    lines.push(b", the greatest work that the library takes\n");
}

/// Writes `LINE:COLUMN: ` of a statement, and whether the text counts too much with the statement
/// or with its proof.
fn push_costly_statement(
    alloc: Global,
    lines: &mut Lines<'_>,
    tokens: &TextTokens<'_>,
    statement: usize,
    limit: u64,
) {
    let text = tokens.text();
    lines.push_place(text, tokens.start_of(statement, 1));
    let end = tokens.start_of(statement.saturating_add(1), 1);
    let front = text.get(..end).unwrap_or(text);
    let Some(Some(database)) = lines.ok_or_fail(closed_database(alloc, front)) else {
        return;
    };
    let library = text.get(..lines.library_len()).unwrap_or(text);
    let own_bytes = text.len().saturating_sub(library.len()) as u64;
    let counted = own_bytes.saturating_add(work_of_statements(&database, count_lines(library)));
    match database.statements().get(statement.saturating_sub(1)) {
        Some(Stmt::Prove { label, .. }) if counted <= limit => {
            lines.push(b": with the proof of ");
            lines.push(label.as_bytes());
            lines.push(b" the text counts");
        }
        _ => lines.push(b": with this statement, and no proof, the text counts"),
    }
}

/// Returns the number of lines, each with its line feed.
fn count_lines(lines: &[u8]) -> usize {
    lines.iter().filter(|byte| **byte == b'\n').count()
}

/// Returns the statements of the front of a text with their frames, its open blocks closed; `None`
/// if they are not legal.
///
/// Errors: an allocation fails.
fn closed_database(alloc: Global, front: &[u8]) -> Result<Option<LegalDatabase>, AllocError> {
    match read(alloc, front) {
        Ok(mut statements) => {
            close_blocks(&mut statements)?;
            LegalDatabase::new(alloc, statements)
        }
        Err(ReadFault::Memory) => Err(AllocError),
        Err(_) => Ok(None),
    }
}

/// Returns the work of all statements but the first ones, without proofs.
fn work_of_statements(database: &LegalDatabase, first: usize) -> u64 {
    let mut work = 0u64;
    for index in first..database.statements().len() {
        work = work.saturating_add(work_of_statement(database, index + 1));
    }
    work
}

/// Returns the work of the statement at a position, without its proof: of its names, and of an
/// assertion its size.
fn work_of_statement(database: &LegalDatabase, at: usize) -> u64 {
    match assertion_at(database.statements(), at) {
        Some(_assertion) => NAME_WORK.saturating_add(database.frames().size(at)),
        None => NAME_WORK.saturating_mul(count_names(database.statements(), at) as u64),
    }
}

/// Returns the assertion at a position, or `None` if there is none.
fn assertion_at(statements: &[Stmt], at: usize) -> Option<&Stmt>
    ensures { IfSome result (λ assertion. HasAssertion statements.now at assertion.now) }
{
    let index = at.checked_sub(1)?;
    let Some(statement) = statements.get(index) else {
        return None;
    };
    if !is_assertion(statement) {
        return None;
    }
    Some(statement)
}

/// Returns whether a statement is an assertion.
fn is_assertion(statement: &Stmt) -> bool
    ensures { result ≡ is_assertion statement.now }
{
    matches!(statement, Stmt::Axiom { .. } | Stmt::Prove { .. })
}

/// Returns how many names the statement at a position has that count: the symbols that a `$c` or
/// `$v` lists, or the label of a hypothesis.
fn count_names(statements: &[Stmt], at: usize) -> usize {
    match statements.get(at.saturating_sub(1)) {
        Some(Stmt::Const(names)) => names.len(),
        Some(Stmt::Var(names)) => names.len(),
        Some(Stmt::Float { .. }) => 1,
        Some(Stmt::Ess { .. }) => 1,
        _ => 0,
    }
}

/// Writes that the `$e` or `$d` stands outside all blocks, and what that would mean.
pub(crate) fn explain_left_hypotheses(
    alloc: Global,
    lines: &mut Lines<'_>,
    text: &[u8],
    statement: usize,
) {
    match read(alloc, text) {
        Ok(statements) => push_left(alloc, lines, text, statements.as_slice(), statement),
        Err(ReadFault::Memory) => lines.fail(),
        Err(_) => {}
    }
}

/// Writes that, given the statements of the text.
fn push_left(
    alloc: Global,
    lines: &mut Lines<'_>,
    text: &[u8],
    statements: &[Stmt],
    statement: usize,
) {
    let Some(tokens) = lines.ok_or_fail(TextTokens::new(alloc, text)) else {
        return;
    };
    lines.push_place(text, tokens.start_of(statement, 1));
    match statements.get(statement.saturating_sub(1)) {
        Some(Stmt::Ess { label, .. }) => {
            lines.push(b": the $e ");
            lines.push(label.as_bytes());
            lines.push(b" stands outside all blocks\n  it would be a hypothesis of");
        }
        _ => lines.push(b": the $d stands outside all blocks\n  it would be active at"),
    }
    lines.push(b" each later theorem: write it in a block, between ${ and $}\n");
}
