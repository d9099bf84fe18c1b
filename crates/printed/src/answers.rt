//! The answers to the lines of a script, with their line feeds.
ghost use Rattle.std.specs.Prelude.{◌≡◌, ◌++◌, codes, decimal, flat_map, OnOk};
ghost use Rattle.mm_read.specs.Statements.{AreShaped};
ghost use Rattle.mm_read.specs.Export.{export_of};
ghost use Rattle.library.specs.Listed.{listed};
ghost use Rattle.printed.specs.Printed.{verdict_text_or, log_text, assertion_line, list_text};
ghost use Rattle.printed.specs.Printed.{export_text};

use crate::packets::push_spaced_entry;
use crate::verdict_text::push_verdict;
use library::{Entry, Library, Listed, Verdict};
use mm_read::{Stmt, push_line};
use std::alloc::AllocError;
use text::push_number;

/// Appends a line `ok N`, where N packets were posted so far.
pub fn push_ok(text: &mut Vec<u8>, posted: u64) -> Result<(), AllocError>
    ensures { OnOk result (text.new.items
        ≡ text.old.items ++ (codes "ok " ++ decimal posted ++ codes "\n")) }
{
    text.extend_from_slice(b"ok ")?;
    push_number(text, posted)?;
    text.extend_from_slice(b"\n")
}

/// Appends the verdict and a line feed. If nothing was decided, `undecided` stands for the verdict:
/// a word that the caller chooses.
pub fn push_verdict_line(
    text: &mut Vec<u8>,
    verdict: Option<Verdict>,
    undecided: &[u8],
) -> Result<(), AllocError>
    ensures { OnOk result (text.new.items
        ≡ text.old.items ++ (verdict_text_or verdict undecided.now ++ codes "\n")) }
{
    push_verdict_or(text, verdict, undecided)?;
    text.extend_from_slice(b"\n")
}

/// Appends the verdict, or the word `undecided` of the caller if nothing was decided.
fn push_verdict_or(
    text: &mut Vec<u8>,
    verdict: Option<Verdict>,
    undecided: &[u8],
) -> Result<(), AllocError>
    ensures { OnOk result (text.new.items
        ≡ text.old.items ++ verdict_text_or verdict undecided.now) }
{
    match verdict {
        Some(verdict) => push_verdict(text, verdict),
        None => text.extend_from_slice(undecided),
    }
}

/// Appends a log on one line: each entry as `AUTHOR/SERIAL`, or `idle` for a no-operation.
pub fn push_log(text: &mut Vec<u8>, log: &[Option<Entry>]) -> Result<(), AllocError>
    ensures { OnOk result (text.new.items ≡ text.old.items ++ (log_text log.now ++ codes "\n")) }
{
    text.extend_from_slice(b"log")?;
    for entry in log {
        push_spaced_entry(text, entry.as_ref())?;
    }
    text.extend_from_slice(b"\n")
}

/// Appends the count of the assertions of a library, and a line for each assertion.
///
/// Cost: the size of all statements.
pub fn push_library_list(text: &mut Vec<u8>, library: &Library) -> Result<(), AllocError>
    ensures { OnOk result (text.new.items
        ≡ text.old.items ++ list_text (listed library.now.replica.statements)) }
{
    let list = library.list()?;
    push_list(text, list.as_slice())
}

/// Appends the count of the assertions, and a line for each assertion.
pub fn push_list(text: &mut Vec<u8>, list: &[Listed]) -> Result<(), AllocError>
    ensures { OnOk result (text.new.items ≡ text.old.items ++ list_text list.now) }
{
    text.extend_from_slice(b"list ")?;
    push_number(text, list.len() as u64)?;
    text.extend_from_slice(b"\n")?;
    push_assertions(text, list)
}

/// Appends a line for each assertion.
pub fn push_assertions(text: &mut Vec<u8>, list: &[Listed]) -> Result<(), AllocError>
    ensures { OnOk result (text.new.items ≡ text.old.items ++ flat_map assertion_line list.now) }
{
    for assertion in list {
        push_assertion_line(text, assertion)?;
    }
    Ok(())
}

/// Appends the line of an assertion: `proved LABEL` for a `$p`, `axiom LABEL` for a `$a`.
fn push_assertion_line(text: &mut Vec<u8>, assertion: &Listed) -> Result<(), AllocError>
    ensures { OnOk result (text.new.items ≡ text.old.items ++ assertion_line assertion.now) }
{
    let kind = if assertion.proved {
        b"proved ".as_slice()
    } else {
        b"axiom "
    };
    text.extend_from_slice(kind)?;
    text.extend_from_slice(assertion.label.as_bytes())?;
    text.extend_from_slice(b"\n")
}

/// Appends the count of the statements of a library, and their export form, a line for each.
pub fn push_export(text: &mut Vec<u8>, library: &Library) -> Result<(), AllocError>
    ensures { OnOk result (text.new.items
        ≡ text.old.items ++ export_text library.now.replica.statements) }
{
    let statements = library.statements();
    text.extend_from_slice(b"export ")?;
    push_number(text, statements.len() as u64)?;
    text.extend_from_slice(b"\n")?;
    push_statements(text, statements)
}

/// Appends the export form of statements.
fn push_statements(text: &mut Vec<u8>, statements: &[Stmt]) -> Result<(), AllocError>
    requires { AreShaped statements.now }
    ensures { OnOk result (text.new.items ≡ text.old.items ++ export_of statements.now) }
{
    for statement in statements {
        push_line(text, statement)?;
    }
    Ok(())
}
