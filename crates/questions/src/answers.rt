//! The answers to questions about a library.
ghost use Rattle.std.specs.Prelude.{◌≡◌, ◌++◌, count_by, IfOk, OnOk};
ghost use Rattle.library.specs.Queries.{IsTreeOf};
ghost use Rattle.verify.specs.Derivations.{Derivation};
ghost use Rattle.scope.specs.Active.{is_provable};
ghost use Rattle.questions.specs.AllFaults.{counted_line};
ghost use Rattle.printed.specs.Trees.{tree_lines};

use crate::fault::Fault;
use crate::proof_texts::write_export_with_proofs;
use crate::proofs::write_proof;
use crate::streams::print;
use commands::Question;
use extract::extract;
use library::Library;
use mm_lex::Word;
use mm_read::Stmt;
use printed::{push_assertions, push_labels, push_tree};
use std::alloc::{AllocError, Global};
use std::io::Write;
use text::push_number;

/// Writes the answer to a question about a library, but to none that needs no proofs.
///
/// Errors: those of the question, before anything is written; `Output` if a write fails; `Memory`
/// if an allocation fails, perhaps after some steps of a proof.
pub fn write_answer<O: Write>(
    alloc: Global,
    library: &Library,
    question: &Question<'_>,
    output: &mut O,
) -> Result<(), Fault> {
    match question {
        Question::Check => print(output, proved_line(alloc, library.statements())?.as_slice()),
        Question::CheckEach => {
            print(
                output,
                all_proved_line(alloc, library.statements())?.as_slice(),
            )
        }
        Question::List => print(output, assertion_lines(alloc, library)?.as_slice()),
        Question::Export(None) => print(output, library.export()?.as_slice()),
        Question::Export(Some(form)) => write_export_with_proofs(alloc, library, *form, output),
        Question::Tree(label) => print(output, derivation_lines(alloc, library, label)?.as_slice()),
        Question::Trace(label) => print_labels(alloc, library.trace(label)?.as_slice(), output),
        Question::Usage { label, all } => {
            print_labels(alloc, library.usage(label, *all)?.as_slice(), output)
        }
        Question::Proof(proof) => write_proof(alloc, library, proof, output),
        Question::Extract(labels) => {
            print(
                output,
                extract(alloc, library, labels.as_slice())?.as_slice(),
            )
        }
        // A database answers these without its proofs (`searches`).
        Question::Show(_) | Question::Find(_) => Ok(()),
    }
}

/// Returns the line `proved N`, where N is the number of `$p`.
fn proved_line(alloc: Global, statements: &[Stmt]) -> Result<Vec<u8>, AllocError> {
    let mut line = Vec::from_slice(alloc, b"proved ")?;
    push_number(&mut line, count_of_proofs(statements) as u64)?;
    line.extend_from_slice(b"\n")?;
    Ok(line)
}

/// Returns the line `proved N of N`, where N is the number of `$p`.
fn all_proved_line(alloc: Global, statements: &[Stmt]) -> Result<Vec<u8>, AllocError> {
    let mut line = Vec::new(alloc);
    push_proved(&mut line, count_of_proofs(statements), 0)?;
    Ok(line)
}

/// Appends the line `proved N of M`: there are `all` `$p`, of which `unproved` are not proved.
pub fn push_proved(line: &mut Vec<u8>, all: usize, unproved: usize) -> Result<(), AllocError>
    ensures { OnOk result (line.new.items ≡ line.old.items ++ counted_line all unproved) }
{
    line.extend_from_slice(b"proved ")?;
    push_number(line, all.saturating_sub(unproved) as u64)?;
    line.extend_from_slice(b" of ")?;
    push_number(line, all as u64)?;
    line.extend_from_slice(b"\n")
}

/// Returns how many of the statements are `$p`.
pub fn count_of_proofs(statements: &[Stmt]) -> usize
    ensures { result ≡ count_by is_provable statements.now }
{
    let mut count = 0;
    for statement in statements {
        if is_provable(statement) {
            count += 1;
        }
    }
    count
}

/// Returns whether a statement is a `$p`.
pub fn is_provable(statement: &Stmt) -> bool
    ensures { result ≡ is_provable statement.now }
{
    matches!(statement, Stmt::Prove { .. })
}

/// Returns a line for each assertion.
fn assertion_lines(alloc: Global, library: &Library) -> Result<Vec<u8>, AllocError> {
    let list = library.list()?;
    let mut lines = Vec::new(alloc);
    push_assertions(&mut lines, list.as_slice())?;
    Ok(lines)
}

/// Returns a line for each node of the derivation of a `$p`.
pub fn derivation_lines(alloc: Global, library: &Library, label: &[u8]) -> Result<Vec<u8>, Fault>
    ensures { IfOk result (λ lines. (t : Derivation)
        × IsTreeOf library.now.replica.statements label.now t
        × (lines.items ≡ tree_lines library.now.replica.statements 0 t)) }
{
    let tree = library.tree(label)?;
    let mut lines = Vec::new(alloc);
    push_tree(&mut lines, library.statements(), &tree, 0)?;
    Ok(lines)
}

/// Prints a line for each label.
fn print_labels<O: Write>(alloc: Global, labels: &[Word], output: &mut O) -> Result<(), Fault> {
    let mut lines = Vec::new(alloc);
    push_labels(&mut lines, labels)?;
    print(output, lines.as_slice())
}
