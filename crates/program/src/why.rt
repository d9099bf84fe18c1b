//! Why a node refused an entry: the entry is checked again after exactly the statements that the
//! library had when it was decided.
use crate::added_texts::added_texts;
use bytes::Bytes;
use commands::NodeEntryId;
use explanation::{DatabaseFault, explain_after};
use library::{Cause, Entry, Library, Verdict};
use mm_read::{ReadFault, read};
use places::{line_and_column, token_span};
use printed::push_counted_lines;
use questions::{Fault, fault_of};
use std::alloc::{AllocError, Global};
use text::push_number;

/// The decision of a node on an entry.
#[derive(Drop)]
pub enum Decision {
    /// Nothing is decided.
    Unknown,
    /// The entry was added: its text, or a charter that came into force.
    Added,
    /// The entry was refused.
    Refused(RefusedEntry),
}

/// A refused entry, the texts that were added before it, and the library's statements now.
#[derive(Drop)]
pub struct RefusedEntry {
    cause: Cause,
    /// The greatest work that an entry may count in the library, if there is a limit.
    limit: Option<u64>,
    entry: Entry,
    /// The texts that were added before it, in order.
    added: Vec<Bytes>,
    /// The statements of the library now, a line for each. Those of `added` are first.
    export: Vec<u8>,
}

/// Returns the decision of a library on an entry. `entries` are those that it applied, in order.
///
/// Errors: an allocation fails. Cost: the size of the library, and the count of the entries.
pub fn decision_of(
    alloc: Global,
    library: &Library,
    entries: &[Option<Entry>],
    entry_id: NodeEntryId,
) -> Result<Decision, AllocError> {
    let cause = match library.status(entry_id.author, entry_id.serial) {
        None => return Ok(Decision::Unknown),
        Some(Verdict::Refused(cause)) => cause,
        Some(_) => return Ok(Decision::Added),
    };
    for (index, entry) in entries.iter().enumerate() {
        let Some(entry) = entry else {
            continue;
        };
        if entry.author() == entry_id.author && entry.serial() == entry_id.serial {
            return Ok(Decision::Refused(RefusedEntry {
                cause,
                limit: library.limit(),
                entry: entry.copy()?,
                added: added_texts(alloc, library, &entries[..index])?,
                export: library.export()?,
            }));
        }
    }
    Ok(Decision::Unknown)
}

/// Appends why the entry is refused: `why`, the count of the lines, and the lines. There are no
/// lines if it was added; if nothing is decided, the answer is `unknown`.
///
/// Errors: an allocation fails. Cost: that of `explanation::explain_after`, and of reading the
/// texts that were added before.
pub fn push_why(alloc: Global, text: &mut Vec<u8>, decision: &Decision) -> Result<(), AllocError> {
    match decision {
        Decision::Unknown => text.extend_from_slice(b"unknown\n"),
        Decision::Added => push_counted_lines(text, b"why", b""),
        Decision::Refused(refused) => {
            push_counted_lines(text, b"why", reason(alloc, refused)?.as_slice())
        }
    }
}

/// Returns the lines that say why an entry is refused.
fn reason(alloc: Global, refused: &RefusedEntry) -> Result<Vec<u8>, AllocError> {
    match (&refused.entry, fault_of(refused.cause, refused.limit)) {
        (Entry::Text(submission), Some(fault)) => {
            explanation(alloc, refused, submission.text.as_slice(), fault)
        }
        (Entry::Text(submission), None) => {
            not_chartered(alloc, submission.text.as_slice(), refused)
        }
        (Entry::Charter { .. }, _) => not_chartered(alloc, b"", refused),
    }
}

/// Returns the explanation of a text that is refused, with lines and columns of that text.
fn explanation(
    alloc: Global,
    refused: &RefusedEntry,
    text: &[u8],
    fault: DatabaseFault,
) -> Result<Vec<u8>, AllocError> {
    let mut count = 0usize;
    if names_statement(fault) {
        count = statement_count(alloc, refused.added.as_slice())?;
    }
    let before = first_lines(refused.export.as_slice(), count);
    let mut whole = Vec::from_slice(alloc, before)?;
    whole.extend_from_slice(text)?;
    explain_after(
        alloc,
        whole.as_slice(),
        before.len(),
        shift_statement(fault, count),
    )
}

/// Returns whether a fault names a statement.
fn names_statement(fault: DatabaseFault) -> bool {
    !matches!(
        fault,
        DatabaseFault::TooLong
            | DatabaseFault::Text
            | DatabaseFault::Shape
            | DatabaseFault::TooCostly { statement: 0, .. }
    )
}

/// Returns the fault with its statement counted after `count` others.
fn shift_statement(fault: DatabaseFault, count: usize) -> DatabaseFault {
    match fault {
        DatabaseFault::Rule { statement, rule } => DatabaseFault::Rule {
            statement: statement.saturating_add(count),
            rule,
        },
        DatabaseFault::Proof { statement } => DatabaseFault::Proof {
            statement: statement.saturating_add(count),
        },
        DatabaseFault::Unfinished { statement } => DatabaseFault::Unfinished {
            statement: statement.saturating_add(count),
        },
        DatabaseFault::TooCostly { statement, limit } if statement != 0 => {
            DatabaseFault::TooCostly {
                statement: statement.saturating_add(count),
                limit,
            }
        }
        DatabaseFault::LeavesHypotheses { statement } => DatabaseFault::LeavesHypotheses {
            statement: statement.saturating_add(count),
        },
        other => other,
    }
}

/// Counts the statements of texts.
fn statement_count(alloc: Global, texts: &[Bytes]) -> Result<usize, AllocError> {
    let mut count = 0usize;
    for text in texts {
        match read(alloc, text.as_slice()) {
            Ok(statements) => count = count.saturating_add(statements.len()),
            Err(ReadFault::Memory) => return Err(AllocError),
            Err(_) => {}
        }
    }
    Ok(count)
}

/// Returns the first `count` lines.
fn first_lines(lines: &[u8], count: usize) -> &[u8] {
    let mut rest = lines;
    for _line in 0..count {
        let Some(end) = rest.iter().position(|byte| *byte == b'\n') else {
            break;
        };
        rest = rest.get(end.saturating_add(1)..).unwrap_or(b"");
    }
    let len = lines.len().saturating_sub(rest.len());
    lines.get(..len).unwrap_or(lines)
}

/// Returns the line that says that the charter does not name the author, with the place of the
/// statement that is refused.
fn not_chartered(
    alloc: Global,
    text: &[u8],
    refused: &RefusedEntry,
) -> Result<Vec<u8>, AllocError> {
    let mut line = Vec::new(alloc);
    if let Cause::NotChartered { statement } = refused.cause
        && let Ok(Some(span)) = token_span(alloc, text, statement, 1)
    {
        let place = line_and_column(text, span.start.min(text.len()));
        push_number(&mut line, place.line as u64)?;
        line.extend_from_slice(b":")?;
        push_number(&mut line, place.column as u64)?;
        line.extend_from_slice(b": ")?;
    }
    line.extend_from_slice(b"the charter does not name author ")?;
    push_number(&mut line, refused.entry.author())?;
    line.extend_from_slice(b"\n")?;
    Ok(line)
}
