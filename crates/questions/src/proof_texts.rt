//! Proofs as text: the options `--normal` and `--compressed` of `proof` and `export`.
ghost use Rattle.library.specs.Queries.{IsProofOf};

use crate::fault::Fault;
use crate::streams::print;
use commands::ProofTextForm;
use library::{Library, MAX_BYTES};
use mm_read::{Stmt, push_line};
use proof_code::Items;
use proof_text::{TextForm, TextRequest, proof_text};
use std::alloc::Global;
use std::io::Write;

/// A text of at least this many bytes is written before more is appended.
const WRITE_THRESHOLD: usize = 65_536;

/// Writes the `$p` with a label, with its proof in this form.
///
/// Errors: those of `Library::items`, `LongProof` and `Memory`, before anything is written;
/// `Output`.
pub fn write_proof_text<O: Write>(
    alloc: Global,
    library: &Library,
    label: &[u8],
    form: ProofTextForm,
    output: &mut O,
) -> Result<(), Fault> {
    print(output, text_of(alloc, library, label, form)?.as_slice())
}

/// Writes the statements of a library in the export form, but each `$p` as `write_proof_text` does.
///
/// Errors: those of `write_proof_text`, perhaps after some statements.
pub fn write_export_with_proofs<O: Write>(
    alloc: Global,
    library: &Library,
    form: ProofTextForm,
    output: &mut O,
) -> Result<(), Fault> {
    let mut text = Vec::new(alloc);
    for statement in library.statements() {
        if let Stmt::Prove { label, .. } = statement {
            let proof = text_of(alloc, library, label.as_bytes(), form)?;
            text.extend_from_slice(&proof)?;
        } else {
            push_line(&mut text, statement)?;
        }
        if text.len() >= WRITE_THRESHOLD {
            output.write_all(&text)?;
            text.clear();
        }
    }
    print(output, &text)
}

/// Returns the text of the `$p` with a label, with its proof in this form.
fn text_of(
    alloc: Global,
    library: &Library,
    label: &[u8],
    form: ProofTextForm,
) -> Result<Vec<u8>, Fault> {
    let (at, items) = library.items(label)?;
    text_of_items(alloc, library, label, at, &items, form)
}

/// Returns the text of the `$p` with a label, at a position, by the items of its proof.
fn text_of_items(
    alloc: Global,
    library: &Library,
    label: &[u8],
    at: usize,
    items: &Items,
    form: ProofTextForm,
) -> Result<Vec<u8>, Fault>
    requires { IsProofOf library.now.replica.statements label.now at items.now }
{
    let request = TextRequest {
        statements: library.statements(),
        frames: library.frames(),
        at,
        form: match form {
            ProofTextForm::Normal => TextForm::Normal,
            ProofTextForm::Compressed => TextForm::Compressed,
        },
        max_bytes: MAX_BYTES,
    };
    Ok(proof_text(alloc, &request, items)?)
}
