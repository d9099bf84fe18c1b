//! The faults of a database, and the calls that explain them.

ghost use Rattle.std.specs.Prelude.{◌≤◌, length, IfOk};

use crate::broken_rule::explain_rule;
use crate::limited_library::{explain_left_hypotheses, explain_too_costly};
use crate::proof::{explain_in_database, explain_proof};
use crate::shape_fault::{explain_shape, explain_token_at};
use crate::text_fault::{explain_byte, explain_text};
use crate::text_tokens::TextTokens;
use crate::written_lines::{Lines, MAX_BYTES};
use scope::Rule;
use std::alloc::{AllocError, Global};
use unproved::{LeftOut, LegalDatabase};

/// Why a database is refused.
#[derive(Clone, Copy, Debug, Drop, PartialEq, Eq)]
pub enum DatabaseFault {
    /// It has too many bytes.
    TooLong,
    /// A byte or a comment is faulty.
    Text,
    /// Its tokens do not parse as statements.
    Shape,
    /// A statement, counted from 1, breaks a rule. The number is one above the last if a block is
    /// open at the end.
    Rule { statement: usize, rule: Rule },
    /// The proof of a `$p` is wrong.
    Proof { statement: usize },
    /// The proof of a `$p` is unfinished.
    Unfinished { statement: usize },
    /// The library has a limit on work, and the text counts more: with this statement or its proof,
    /// or, if the number is 0, by its bytes.
    TooCostly { statement: usize, limit: u64 },
    /// The library has a limit on work, and this `$e` or `$d` stands outside all blocks.
    LeavesHypotheses { statement: usize },
}

/// Returns the lines that explain why the text is refused, at most 65,536 bytes. They are
/// unspecified if the text does not have this fault. The name of its file, if given, is written
/// before each place.
///
/// Errors: an allocation fails, or those of `explain::explain`. Cost: a few passes over the text;
/// for `Rule` also that of `rule_violation::violation_of`, and for `Proof` and `Unfinished` those
/// of `LegalDatabase::new` and `explain::explain`.
pub fn explain_refusal(
    alloc: Global,
    name: Option<&str>,
    text: &[u8],
    fault: DatabaseFault,
) -> Result<Vec<u8>, AllocError>
    ensures short { IfOk result (λ lines. length lines.items ≤ MAX_BYTES) }
{
    let mut lines = Lines::new(alloc, name, 0);
    push_lines(alloc, &mut lines, text, fault);
    lines.into_bytes()
}

/// Returns the lines that explain why a text is refused after the statements of a library, at most
/// 65,536 bytes. The first `library_len` bytes of `text` are the export of the library; lines and
/// columns are counted in the rest, which is the refused text. The statement number in `fault`
/// counts from the first statement of the library.
///
/// Errors and cost: those of `explain_refusal`.
pub fn explain_after(
    alloc: Global,
    text: &[u8],
    library_len: usize,
    fault: DatabaseFault,
) -> Result<Vec<u8>, AllocError>
    ensures short { IfOk result (λ lines. length lines.items ≤ MAX_BYTES) }
{
    let mut lines = Lines::new(alloc, None, library_len);
    push_lines(alloc, &mut lines, text, fault);
    lines.into_bytes()
}

/// Returns the lines that explain why the proof of the `$p` at a position is wrong or unfinished,
/// at most 65,536 bytes; none if it is correct, or if there is no `$p` at the position. `database`
/// has the statements of the text whose tokens are given, without those that are left out.
///
/// Errors: those of `explain::explain`. Cost: that of `explain::explain`, and a pass over the text.
pub fn explain_unproved(
    alloc: Global,
    name: Option<&str>,
    tokens: &TextTokens<'_>,
    database: &LegalDatabase,
    left_out: &[LeftOut],
    statement: usize,
) -> Result<Vec<u8>, AllocError>
    ensures short { IfOk result (λ lines. length lines.items ≤ MAX_BYTES) }
{
    let mut lines = Lines::new(alloc, name, 0);
    explain_in_database(alloc, &mut lines, tokens, database, left_out, statement);
    lines.into_bytes()
}

/// Returns the lines that explain why the token at an index, or the end of the text, may not stand
/// there, at most 65,536 bytes; none if there are fewer tokens.
///
/// Errors: an allocation fails. Cost: a pass over the text.
pub fn explain_misread(
    alloc: Global,
    name: Option<&str>,
    tokens: &TextTokens<'_>,
    index: usize,
) -> Result<Vec<u8>, AllocError>
    ensures short { IfOk result (λ lines. length lines.items ≤ MAX_BYTES) }
{
    let mut lines = Lines::new(alloc, name, 0);
    explain_token_at(&mut lines, tokens.text(), tokens.spans(), index);
    lines.into_bytes()
}

/// Returns the lines that explain that the byte at an offset is not allowed, at most 65,536 bytes.
///
/// Errors: an allocation fails. Cost: a pass over the text.
pub fn explain_refused_byte(
    alloc: Global,
    name: Option<&str>,
    text: &[u8],
    offset: usize,
) -> Result<Vec<u8>, AllocError>
    ensures short { IfOk result (λ lines. length lines.items ≤ MAX_BYTES) }
{
    let mut lines = Lines::new(alloc, name, 0);
    explain_byte(&mut lines, text, offset);
    lines.into_bytes()
}

/// Writes the lines that explain the fault.
fn push_lines(alloc: Global, lines: &mut Lines<'_>, text: &[u8], fault: DatabaseFault) {
    match fault {
        DatabaseFault::TooLong => lines.push(
            b"a database may have at most 67108864 bytes, and this one has more\n",
        ),
        DatabaseFault::Text => explain_text(alloc, lines, text),
        DatabaseFault::Shape => explain_shape(alloc, lines, text),
        DatabaseFault::Rule { statement, rule } => explain_rule(
            alloc, lines, text, statement, rule,
        ),
        DatabaseFault::Proof { statement } => explain_proof(alloc, lines, text, statement),
        DatabaseFault::Unfinished { statement } => explain_proof(alloc, lines, text, statement),
        DatabaseFault::TooCostly { statement, limit } => {
            explain_too_costly(alloc, lines, text, statement, limit)
        }
        DatabaseFault::LeavesHypotheses { statement } => {
            explain_left_hypotheses(alloc, lines, text, statement)
        }
    }
}
