//! The statements of a text, the first of them that the charter forbids its author, and the first
//! hypothesis that it leaves active.
ghost use Rattle.std.specs.Prelude.{◌≡◌, ◌<◌, ◌^◌, IfOk};
ghost use Rattle.library.specs.Causes.{first_left, is_condition};
ghost use Rattle.library.specs.Charters.{first_forbidden, is_declaration, may_declare};
ghost use Rattle.library.specs.Judging.{IsReading, ReadsTexts, closed_from};
ghost use Rattle.std.specs.Fn.{FnReturnsAt};

use crate::charter::Names;
use crate::submission::{MAX_BYTES, Submission};
use crate::verdict::Cause;
use mm_read::{ReadFault, Stmt};
use std::alloc::AllocError;
use verify::Meter;

/// The statements of a text that is to be judged.
#[derive(Drop)]
pub(crate) struct NewText {
    pub statements: Vec<Stmt>,
    /// The number of the first `$e` or `$d` that is active after them, if there is a limit.
    pub leaves: Option<usize>,
    /// Has counted the bytes of the text.
    pub meter: Meter,
}

/// Returns the statements of the text if it has at most `MAX_BYTES` bytes, these are within the
/// limit on its work, it reads as statements, and the charter forbids its author none of these.
/// Otherwise returns a cause of its refusal that does not depend on the statements of the library.
/// `read` returns the statements of a text.
///
/// Errors: an allocation fails. Cost: that of reading, and the number of statements.
pub(crate) fn read_text<T: Fn(&[u8]) -> Result<Vec<Stmt>, ReadFault>>(
    limit: Option<u64>,
    charter: &Option<Names>,
    submission: &Submission,
    read: &T,
) -> Result<Result<NewText, Cause>, AllocError>
    requires { T.IsAlwaysCallable read.now × ReadsTexts (FnReturnsAt T.Fn read.now) }
    ensures { IfOk result (IsReading limit charter.now submission.now) }
{
    let text = submission.text.as_slice();
    if text.len() > MAX_BYTES {
        return Ok(Err(Cause::TooLong));
    }
    let mut meter = Meter::new(limit);
    meter.add(text.len() as u64)?;
    if meter.is_past() {
        return Ok(Err(Cause::TooCostly { statement: 0 }));
    }
    let statements = match read(text) {
        Ok(statements) => statements,
        Err(ReadFault::Text(_)) => return Ok(Err(Cause::Text)),
        Err(ReadFault::Shape { .. }) => return Ok(Err(Cause::Shape)),
        Err(ReadFault::Memory) => return Err(AllocError),
    };
    if let Some(statement) = first_forbidden(charter, submission.author, &statements) {
        return Ok(Err(Cause::NotChartered { statement }));
    }
    let leaves = match limit {
        Some(_) => first_left(&statements),
        None => None,
    };
    Ok(Ok(NewText {
        statements,
        leaves,
        meter,
    }))
}

/// Returns whether the author may declare constants and axioms, and have a charter added: there is
/// no charter in force, or it names the author.
pub(crate) fn may_declare(charter: &Option<Names>, author: u64) -> bool
    ensures { result ≡ may_declare charter.now author }
{
    match charter {
        Some(names) => names.has(author),
        None => true,
    }
}

/// Returns the number of the first statement that the author may not declare, counted from 1.
fn first_forbidden(charter: &Option<Names>, author: u64, statements: &[Stmt]) -> Option<usize>
    ensures { result ≡ first_forbidden charter.now author statements.now }
{
    if may_declare(charter, author) {
        return None;
    }
    for (index, statement) in statements.iter().enumerate() {
        if is_declaration(statement) {
            return Some(index + 1);
        }
    }
    None
}

/// Returns whether the statement is a `$c` or a `$a`.
fn is_declaration(statement: &Stmt) -> bool
    ensures { result ≡ is_declaration statement.now }
{
    matches!(statement, Stmt::Const(_) | Stmt::Axiom { .. })
}

/// Returns the number of the first `$e` or `$d` of the statements that is active after them,
/// counted from 1.
fn first_left(statements: &[Stmt]) -> Option<usize>
    ensures { result ≡ first_left 1 statements.now }
{
    let mut found = None;
    // How many blocks that are open before the statement at `index` are closed from there on.
    let mut closed = 0usize;
    let mut index = statements.len();
    while index > 0 {
        index -= 1;
        let statement = &statements[index];
        if closed == 0 && is_condition(statement) {
            found = Some(index + 1);
        }
        closed = closed_from(statement, closed);
    }
    found
}

/// Returns whether the statement is a `$e` or a `$d`.
fn is_condition(statement: &Stmt) -> bool
    ensures { result ≡ is_condition statement.now }
{
    matches!(statement, Stmt::Ess { .. } | Stmt::Disj(_))
}

/// Returns how many blocks that are open before the statement are closed by it and later ones, of
/// which these close so many that are open after it.
fn closed_from(statement: &Stmt, closed: usize) -> usize
    requires { closed < 2 ^ 63 }
    ensures { result ≡ closed_from statement.now closed }
{
    match statement {
        Stmt::Open => closed.saturating_sub(1),
        Stmt::Close => closed + 1,
        _ => closed,
    }
}
