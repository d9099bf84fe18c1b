//! Answers about the library of a node, which `play` and `serve` share.
ghost use Rattle.std.specs.Prelude.{◌≡◌, ◌↔◌, ◌<◌, length, IfOk};
ghost use Rattle.cluster.specs.declared.compare.Ahead.TheVariants.{First, Same, Second};
ghost use Rattle.commands.specs.declared.node_question.LabelQuestionKind.TheVariants.{Find, Show};
ghost use Rattle.commands.specs.declared.node_question.LabelQuestionKind.TheVariants.{Trace, Tree};
ghost use Rattle.printed.specs.Counted.{counted_lines_text};
ghost use Rattle.program.specs.Answers.{IsLabelAnswer, IsUsageAnswer, ahead_line, labels_text};

use crate::added_texts::description_of;
use cluster::Ahead;
use commands::{LabelQuestionKind, NodeQuestion, ProofForm, ProofQuestion, Question};
use library::{Entry, Library};
use mm_lex::Word;
use printed::{push_counted_lines, push_labels};
use questions::{Fault, derivation_lines, library_block, pattern_lines, write_answer};
use std::alloc::{AllocError, Global};

/// Returns the answer to a question about a label, or a pattern: its word, the count of its lines,
/// and the lines of the database command on the export. `entries` are those that the library
/// applied, in order, if the question is `Show`, which has the description of the statement too.
///
/// Errors: those of the question; `Memory` if an allocation fails.
pub fn label_answer(
    alloc: Global,
    library: &Library,
    entries: &[Option<Entry>],
    question: &NodeQuestion,
) -> Result<Vec<u8>, Fault>
    ensures { IfOk result (λ text. IsLabelAnswer
        library.now.replica.statements question.now.kind question.now.label text.items) }
{
    let label = question.label.as_slice();
    match question.kind {
        LabelQuestionKind::Trace => trace_answer(alloc, library, label),
        LabelQuestionKind::Usage => usage_answer(alloc, library, label, false),
        LabelQuestionKind::UsageAll => usage_answer(alloc, library, label, true),
        LabelQuestionKind::Tree => tree_answer(alloc, library, label),
        LabelQuestionKind::Show => shown_answer(alloc, library, entries, label),
        LabelQuestionKind::Find => found_answer(alloc, library, label),
        LabelQuestionKind::Proof => proof_answer(alloc, library, label),
    }
}

/// Returns the answer to `trace`.
fn trace_answer(alloc: Global, library: &Library, label: &[u8]) -> Result<Vec<u8>, Fault>
    ensures { IfOk result (λ text. IsLabelAnswer
        library.now.replica.statements Trace label.now text.items) }
{
    let labels = library.trace(label)?;
    Ok(counted_labels(alloc, b"trace", labels.as_slice())?)
}

/// Returns the answer to `usage`: the `$p` that cite the statement, or all that rest on it.
fn usage_answer(alloc: Global, library: &Library, label: &[u8], all: bool) -> Result<Vec<u8>, Fault>
    ensures { IfOk result (λ text. IsUsageAnswer
        library.now.replica.statements all label.now text.items) }
{
    let labels = library.usage(label, all)?;
    Ok(counted_labels(alloc, b"usage", labels.as_slice())?)
}

/// Returns a line of a word and the count of the labels, and a line for each label.
fn counted_labels(alloc: Global, word: &[u8], labels: &[Word]) -> Result<Vec<u8>, AllocError>
    ensures { IfOk result (λ text. text.items ≡ labels_text word.now labels.now) }
{
    let mut lines = Vec::new(alloc);
    push_labels(&mut lines, labels)?;
    counted_lines(alloc, word, lines.as_slice())
}

/// Returns the answer to `tree`.
fn tree_answer(alloc: Global, library: &Library, label: &[u8]) -> Result<Vec<u8>, Fault>
    ensures { IfOk result (λ text. IsLabelAnswer
        library.now.replica.statements Tree label.now text.items) }
{
    let lines = derivation_lines(alloc, library, label)?;
    Ok(counted_lines(alloc, b"tree", lines.as_slice())?)
}

/// Returns a line of a word and the count of the lines, and the lines.
fn counted_lines(alloc: Global, word: &[u8], lines: &[u8]) -> Result<Vec<u8>, AllocError>
    ensures { IfOk result (λ text. text.items ≡ counted_lines_text word.now lines.now) }
{
    let mut text = Vec::new(alloc);
    push_counted_lines(&mut text, word, lines)?;
    Ok(text)
}

/// Returns the answer to `show`: the block of the statement, with its description.
fn shown_answer(
    alloc: Global,
    library: &Library,
    entries: &[Option<Entry>],
    label: &[u8],
) -> Result<Vec<u8>, Fault>
    ensures { IfOk result (λ text. IsLabelAnswer
        library.now.replica.statements Show label.now text.items) }
{
    let description = description_of(alloc, library, entries, label)?;
    let lines = library_block(alloc, library, label, bytes_of(&description))?;
    Ok(counted_lines(alloc, b"show", lines.as_slice())?)
}

/// Returns the bytes of a description, if there is one.
fn bytes_of(description: &Option<Vec<u8>>) -> Option<&[u8]> {
    match description {
        Some(bytes) => Some(bytes.as_slice()),
        None => None,
    }
}

/// Returns the answer to `find`: the assertions whose expression has the pattern.
fn found_answer(alloc: Global, library: &Library, pattern: &[u8]) -> Result<Vec<u8>, Fault>
    ensures { IfOk result (λ text. IsLabelAnswer
        library.now.replica.statements Find pattern.now text.items) }
{
    let lines = pattern_lines(alloc, library, pattern)?;
    Ok(counted_lines(alloc, b"find", lines.as_slice())?)
}

/// Returns the answer to `proof`: the steps of the proof.
fn proof_answer(alloc: Global, library: &Library, label: &[u8]) -> Result<Vec<u8>, Fault> {
    let question = Question::Proof(ProofQuestion {
        label,
        essential_only: false,
        form: ProofForm::Steps,
    });
    let mut lines = Vec::new(alloc);
    match write_answer(alloc, library, &question, &mut lines) {
        // A write to a list of bytes fails only if an allocation fails.
        Err(Fault::Output) => Err(Fault::Memory(AllocError)),
        Err(fault) => Err(fault),
        Ok(()) => Ok(counted_lines(alloc, b"proof", lines.as_slice())?),
    }
}

/// Returns which of two libraries has more statements.
pub fn compare_libraries(one: &Library, other: &Library) -> Ahead
    ensures first { (result ≡ First)
        ↔ (length other.now.replica.statements < length one.now.replica.statements) }
    ensures same { (result ≡ Same)
        ↔ (length one.now.replica.statements ≡ length other.now.replica.statements) }
    ensures second { (result ≡ Second)
        ↔ (length one.now.replica.statements < length other.now.replica.statements) }
{
    let first = one.statements().len();
    let second = other.statements().len();
    if first > second {
        Ahead::First
    } else if first < second {
        Ahead::Second
    } else {
        Ahead::Same
    }
}

/// Returns the line that says which node is ahead.
pub fn ahead_line(ahead: Ahead) -> &'static [u8]
    ensures { result.now ≡ ahead_line ahead }
{
    match ahead {
        Ahead::First => b"first\n",
        Ahead::Same => b"same\n",
        Ahead::Second => b"second\n",
    }
}
