//! A question that is refused: the line that is printed, and the reason in words.
use crate::fault::Fault;
use crate::streams::print;
use commands::Question;
use extract::ExtractFault;
use frame::Frames;
use library::{AskFault, Library};
use mm_read::Stmt;
use std::io::Write;

/// Prints the line for a question that is refused, and the reason on `stderr`; returns the exit
/// status.
///
/// Errors: the output cannot be written.
pub fn print_refused_question<O: Write, F: Write>(
    library: &Library,
    question: &Question<'_>,
    fault: Fault,
    output: &mut O,
    stderr: &mut F,
) -> Result<u8, Fault> {
    fault.write(output)?;
    let _ = write_reason(library, question, &fault, stderr);
    Ok(1)
}

/// Writes why the label of a question is refused. Writes nothing for any other fault.
fn write_reason<F: Write>(
    library: &Library,
    question: &Question<'_>,
    fault: &Fault,
    stderr: &mut F,
) -> Result<(), Fault> {
    let label = refused_label(library, question, fault);
    write_label_reason(library.frames(), library.statements(), label, fault, stderr)
}

/// Writes why this label is refused. Writes nothing for a fault that is not about a label.
pub fn write_label_reason<F: Write>(
    frames: &Frames,
    statements: &[Stmt],
    label: &[u8],
    fault: &Fault,
    stderr: &mut F,
) -> Result<(), Fault> {
    match fault {
        Fault::Ask(AskFault::NoLabel) | Fault::Extract(ExtractFault::NoLabel) => {
            stderr.write_all(b"no statement has the label ")?;
            stderr.write_all(label)?;
        }
        Fault::Ask(AskFault::NotProvable) => {
            write_label_and_keyword(frames, statements, label, stderr)?;
            stderr.write_all(b"; only a $p has a proof")?;
        }
        Fault::Ask(AskFault::TooLarge) => {
            stderr.write_all(b"the tree has more than 65536 nodes or is deeper than 1024; proof ")?;
            stderr.write_all(label)?;
            stderr.write_all(b" shows the same steps without a limit")?;
        }
        Fault::LongProof => {
            stderr.write_all(
                b"a proof in this form has more than 67108864 bytes, or its results more symbols",
            )?;
        }
        Fault::Extract(ExtractFault::NotAssertion) => {
            write_label_and_keyword(frames, statements, label, stderr)?;
            stderr.write_all(b"; only an assertion can be extracted")?;
        }
        Fault::Extract(ExtractFault::SameLabel) => {
            stderr.write_all(label)?;
            stderr.write_all(b" is named twice")?;
        }
        _ => return Ok(()),
    }
    print(stderr, b"\n")
}

/// Writes a label, and the keyword of the statement that has it.
fn write_label_and_keyword<F: Write>(
    frames: &Frames,
    statements: &[Stmt],
    label: &[u8],
    stderr: &mut F,
) -> Result<(), Fault> {
    stderr.write_all(label)?;
    stderr.write_all(b" is a ")?;
    Ok(stderr.write_all(keyword_of(frames, statements, label))?)
}

/// Returns the label for which a question is refused, or an empty label if it has none.
fn refused_label<'a>(library: &Library, question: &Question<'a>, fault: &Fault) -> &'a [u8] {
    match question {
        Question::Tree(label) => label,
        Question::Trace(label) => label,
        Question::Usage { label, .. } => label,
        Question::Proof(proof) => proof.label,
        Question::Extract(labels) => first_refused(library, labels.as_slice(), fault),
        _ => b"",
    }
}

/// Returns the first of the labels that the fault is about.
fn first_refused<'a>(library: &Library, labels: &[&'a str], fault: &Fault) -> &'a [u8] {
    for (index, label) in labels.iter().enumerate() {
        let is_refused = match fault {
            Fault::Extract(ExtractFault::SameLabel) => labels[..index].contains(label),
            Fault::Extract(ExtractFault::NotAssertion) => {
                matches!(
                    keyword_of(library.frames(), library.statements(), label.as_bytes()),
                    b"$f" | b"$e"
                )
            }
            _ => library.frames().position(label.as_bytes()).is_none(),
        };
        if is_refused {
            return label.as_bytes();
        }
    }
    b""
}

/// Returns the keyword of the statement with a label, or an empty text if there is no statement.
fn keyword_of(frames: &Frames, statements: &[Stmt], label: &[u8]) -> &'static [u8] {
    let Some(at) = frames.position(label) else {
        return b"";
    };
    match statements.get(at.saturating_sub(1)) {
        Some(Stmt::Float { .. }) => b"$f",
        Some(Stmt::Ess { .. }) => b"$e",
        Some(Stmt::Axiom { .. }) => b"$a",
        Some(Stmt::Prove { .. }) => b"$p",
        _ => b"",
    }
}
