//! A database that is refused: the line that is printed, and the reason in words.
ghost use Rattle.std.specs.Prelude.{◌≡◌, ◌++◌, IfOk, OnOk};
ghost use Rattle.questions.specs.AllFaults.{refusal_line};

use crate::fault::Fault;
use crate::named_text::NamedText;
use crate::streams::print;
use explanation::{DatabaseFault, explain_refusal};
use library::{Cause, Verdict};
use mm_read::{ReadFault, read};
use printed::{first_broken_rule, push_verdict};
use std::alloc::{AllocError, Global};
use std::io::Write;

/// Prints the line for a text that is refused, and the reason on `stderr`; returns the exit status.
///
/// If an allocation for the reason fails, only the line is printed.
pub fn print_refused_text<O: Write, F: Write>(
    alloc: Global,
    text: NamedText<'_>,
    cause: Cause,
    output: &mut O,
    stderr: &mut F,
) -> Result<u8, Fault> {
    print(output, refusal_line(alloc, cause)?.as_slice())?;
    if let Some(fault) = fault_of(cause, None) {
        print_reason(alloc, text, fault, stderr);
    }
    Ok(1)
}

/// Returns the line for a database that is refused.
fn refusal_line(alloc: Global, cause: Cause) -> Result<Vec<u8>, AllocError>
    ensures { IfOk result (λ line. line.items ≡ refusal_line cause) }
{
    let mut line = Vec::new(alloc);
    push_refusal(&mut line, cause)?;
    Ok(line)
}

/// Appends the line of a refusal.
pub fn push_refusal(lines: &mut Vec<u8>, cause: Cause) -> Result<(), AllocError>
    ensures { OnOk result (lines.new.items ≡ lines.old.items ++ refusal_line cause) }
{
    push_verdict(lines, Verdict::Refused(cause))?;
    lines.extend_from_slice(b"\n")
}

/// Returns the fault to explain for a cause in a library with this limit on work; `None` for
/// `NotChartered`, which is no fault of a text, and for `TooCostly` without a limit, for which no
/// library refuses a text.
pub fn fault_of(cause: Cause, limit: Option<u64>) -> Option<DatabaseFault> {
    match cause {
        Cause::TooLong => Some(DatabaseFault::TooLong),
        Cause::Text => Some(DatabaseFault::Text),
        Cause::Shape => Some(DatabaseFault::Shape),
        Cause::Rule { statement, rule } => Some(DatabaseFault::Rule { statement, rule }),
        Cause::Proof { statement } => Some(DatabaseFault::Proof { statement }),
        Cause::Unfinished { statement } => Some(DatabaseFault::Unfinished { statement }),
        Cause::TooCostly { statement } => Some(DatabaseFault::TooCostly {
            statement,
            limit: limit?,
        }),
        Cause::LeavesHypotheses { statement } => Some(DatabaseFault::LeavesHypotheses {
            statement,
        }),
        Cause::NotChartered { .. } => None,
    }
}

/// Prints why a text is refused, if allocation succeeds.
fn print_reason<F: Write>(
    alloc: Global,
    text: NamedText<'_>,
    fault: DatabaseFault,
    stderr: &mut F,
) {
    if let Ok(lines) = explain_refusal(alloc, text.name, text.bytes, fault) {
        let _ = print(stderr, lines.as_slice());
    }
}

/// Prints why the outline of a text refuses it, if allocation succeeds.
pub fn print_outline_reason<F: Write>(alloc: Global, text: NamedText<'_>, stderr: &mut F) {
    if let Ok(Some(fault)) = outline_fault(alloc, text.bytes) {
        print_reason(alloc, text, fault, stderr);
    }
}

/// Returns the fault for which the outline refuses a text, if there is one.
fn outline_fault(alloc: Global, text: &[u8]) -> Result<Option<DatabaseFault>, AllocError> {
    match read(alloc, text) {
        Ok(statements) => match first_broken_rule(alloc, statements.as_slice())? {
            Some((statement, rule)) => Ok(Some(DatabaseFault::Rule { statement, rule })),
            None => Ok(None),
        },
        Err(ReadFault::Text(_)) => Ok(Some(DatabaseFault::Text)),
        Err(ReadFault::Shape { .. }) => Ok(Some(DatabaseFault::Shape)),
        Err(ReadFault::Memory) => Err(AllocError),
    }
}
