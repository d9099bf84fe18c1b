//! Questions about a database in which each `$p` that is not proved is taken as a `$a`.

use crate::databases::answer_accepted;
use crate::fault::Fault;
use crate::streams::print;
use commands::{DatabaseQuestion, Question};
use library::{AskFault, Library};
use mm_read::Stmt;
use std::alloc::{AllocError, Global};
use std::io::Write;
use std::mem::forget;
use std::thread::Threads;
use text::push_number;
use unproved::LegalDatabase;
use verify_pool::PoolSize;

/// The greatest count of labels that are printed.
const MAX_NAMED: usize = 10;

/// Prints the answer about the statements of a text, each `$p` that is not proved taken as a `$a`;
/// returns the exit status. The count of these `$p` and the labels of the first `MAX_NAMED` go to
/// `stderr`.
///
/// The library is leaked: the end of the process frees all of it at once.
pub fn answer_assuming<R: AllocGlobal + Threads + Sync, O: Write, F: Write>(
    rt: &R,
    request: &DatabaseQuestion<'_>,
    database: LegalDatabase,
    output: &mut O,
    stderr: &mut F,
) -> Result<u8, Fault> {
    let assumed = assume_unproved(rt, database, stderr)?;
    let answered = answer_marked(rt.alloc(), &assumed, request, output, stderr);
    forget(assumed);
    answered
}

/// Prints the answer about a library in which some `$a` are theorems that are not proved. `list`
/// and the refusal of a question about the proof of such a theorem say so.
fn answer_marked<O: Write, F: Write>(
    alloc: Global,
    assumed: &AssumedDatabase,
    request: &DatabaseQuestion<'_>,
    output: &mut O,
    stderr: &mut F,
) -> Result<u8, Fault> {
    let library = &assumed.library;
    let is_unproved = assumed.is_unproved.as_slice();
    if let Question::List = &request.question {
        let lines = assumed_list(alloc, library.statements(), is_unproved)?;
        print(output, lines.as_slice())?;
        return Ok(0);
    }
    if let Some(label) = question_of_proof(&request.question)
        && is_marked_label(library, is_unproved, label)
    {
        Fault::Ask(AskFault::NotProvable).write(output)?;
        let _ = print_not_proved(label, stderr);
        return Ok(1);
    }
    answer_accepted(alloc, library, &request.question, output, stderr)
}

/// Returns the label of a question about the proof of a `$p`, or `None` for another question.
fn question_of_proof<'a>(question: &Question<'a>) -> Option<&'a [u8]> {
    match question {
        Question::Tree(label) | Question::Trace(label) => Some(label),
        Question::Proof(proof) => Some(proof.label),
        _ => None,
    }
}

/// Returns whether the statement with a label is marked.
fn is_marked_label(library: &Library, marks: &[bool], label: &[u8]) -> bool {
    match library.frames().position(label) {
        Some(at) => is_marked(marks, at.saturating_sub(1)),
        None => false,
    }
}

/// Returns the mark at an index, or `false` if there is none.
fn is_marked(marks: &[bool], index: usize) -> bool {
    marks.get(index).copied().unwrap_or(false)
}

/// Prints that a theorem is not proved.
fn print_not_proved<F: Write>(label: &[u8], stderr: &mut F) -> Result<(), Fault> {
    stderr.write_all(label)?;
    print(
        stderr,
        b" is a theorem, not proved; only a proof that is right has steps\n",
    )
}

/// Returns the lines of `list`: those of the assertions of a library, in order.
fn assumed_list(
    alloc: Global,
    statements: &[Stmt],
    is_unproved: &[bool],
) -> Result<Vec<u8>, AllocError> {
    let mut lines = Vec::new(alloc);
    for (index, statement) in statements.iter().enumerate() {
        push_assumed(&mut lines, statement, is_marked(is_unproved, index))?;
    }
    Ok(lines)
}

/// Appends the line of an assertion, or nothing for another statement.
fn push_assumed(
    lines: &mut Vec<u8>,
    statement: &Stmt,
    is_unproved: bool,
) -> Result<(), AllocError> {
    let (kind, label) = match statement {
        Stmt::Axiom { label, .. } if is_unproved => (b"theorem, not proved ".as_slice(), label),
        Stmt::Axiom { label, .. } => (b"axiom ".as_slice(), label),
        Stmt::Prove { label, .. } => (b"proved ".as_slice(), label),
        _ => return Ok(()),
    };
    lines.extend_from_slice(kind)?;
    lines.extend_from_slice(label.as_bytes())?;
    lines.extend_from_slice(b"\n")
}

/// A library in which some `$a` are theorems that are not proved.
#[derive(Drop)]
pub struct AssumedDatabase {
    pub library: Library,
    /// For each statement whether it is such a theorem.
    pub is_unproved: Vec<bool>,
}

/// Returns a library of the statements of a text, each `$p` that is not proved taken as a `$a`,
/// with a mark for each of these. The count of these `$p` and the labels of the first `MAX_NAMED`
/// go to `stderr`.
pub fn assume_unproved<R: AllocGlobal + Threads + Sync, F: Write>(
    rt: &R,
    database: LegalDatabase,
    stderr: &mut F,
) -> Result<AssumedDatabase, AllocError> {
    let unproved = database.unproved(rt, PoolSize::for_machine(rt))?;
    print_assumed(rt.alloc(), &database, unproved.as_slice(), stderr);
    let count = database.statements().len();
    let is_unproved = marks_at(rt.alloc(), count, unproved.as_slice())?;
    let library = database.into_assumed_library(unproved.as_slice())?;
    Ok(AssumedDatabase {
        library,
        is_unproved,
    })
}

/// Returns `count` marks, of which those at these positions, from 1, are set.
fn marks_at(alloc: Global, count: usize, positions: &[usize]) -> Result<Vec<bool>, AllocError> {
    let mut marks = vec![in alloc; false; count]?;
    for position in positions {
        if let Some(mark) = marks.get_mut(position.saturating_sub(1)) {
            *mark = true;
        }
    }
    Ok(marks)
}

/// Prints how many theorems are taken as axioms and the labels of the first `MAX_NAMED`, if there
/// are any and if allocation succeeds.
pub fn print_assumed<F: Write>(
    alloc: Global,
    database: &LegalDatabase,
    unproved: &[usize],
    stderr: &mut F,
) {
    if unproved.is_empty() {
        return;
    }
    if let Ok(line) = assumed_line(alloc, database, unproved) {
        let _ = print(stderr, line.as_slice());
    }
}

/// Returns the line that says how many theorems are taken as axioms, with the labels of the first
/// `MAX_NAMED`.
fn assumed_line(
    alloc: Global,
    database: &LegalDatabase,
    unproved: &[usize],
) -> Result<Vec<u8>, AllocError> {
    let mut line = Vec::new(alloc);
    push_number(&mut line, unproved.len() as u64)?;
    line.extend_from_slice(if unproved.len() == 1 {
        b" theorem has no right proof and is taken as an axiom:".as_slice()
    } else {
        b" theorems have no right proof and are taken as axioms:".as_slice()
    })?;
    for at in unproved.iter().take(MAX_NAMED) {
        line.extend_from_slice(b" ")?;
        line.extend_from_slice(label_at(database.statements(), *at))?;
    }
    if unproved.len() > MAX_NAMED {
        line.extend_from_slice(b" and ")?;
        push_number(&mut line, (unproved.len() - MAX_NAMED) as u64)?;
        line.extend_from_slice(b" more")?;
    }
    line.extend_from_slice(b"\n")?;
    Ok(line)
}

/// Returns the label of the `$p` at a position, or an empty label if there is no `$p`.
fn label_at(statements: &[Stmt], at: usize) -> &[u8] {
    match statements.get(at.saturating_sub(1)) {
        Some(Stmt::Prove { label, .. }) => label.as_bytes(),
        _ => b"",
    }
}
