//! The command `proof`: the steps of a proof as lines, as a picture or as a page, or its text.
ghost use Rattle.std.specs.Prelude.{◌≤◌, length};
ghost use Rattle.mm_read.specs.declared.stmt.Stmt.{Stmt as Statement};
ghost use Rattle.steps.specs.Rows.{AreRows};
ghost use Rattle.verify.specs.Right.{IsProvable};

use crate::fault::Fault;
use crate::proof_texts::write_proof_text;
use crate::streams::print;
use commands::{ProofForm, ProofQuestion};
use frame::Frames;
use library::Library;
use mm_lex::Word;
use proof_pages::{
    PageContents, ProofSteps, RelatedItems, Typecodes, write_dot, write_page, write_step_lines,
};
use std::alloc::{AllocError, Global};
use std::io::Write;
use steps::{ProofTable, essential_table, proof_table};

/// The proof of a `$p`.
#[derive(Drop)]
struct Proof<'a> {
    library: &'a Library,
    /// The frames of the library.
    frames: &'a Frames,
    /// The position of the `$p`.
    at: usize,
    /// All steps of its proof.
    steps: &'a ProofTable,
}

/// Writes the steps of the proof of a label, in the form of the request.
///
/// Errors: those of `Library::items`; `Output`; `Memory` if an allocation fails, perhaps after some
/// steps.
pub fn write_proof<O: Write>(
    alloc: Global,
    library: &Library,
    question: &ProofQuestion<'_>,
    output: &mut O,
) -> Result<(), Fault> {
    if let ProofForm::Text(form) = question.form {
        return write_proof_text(alloc, library, question.label, form, output);
    }
    let (at, items) = library.items(question.label)?;
    let frames = library.frames();
    let steps = proof_table(alloc, frames, at, &items)?;
    let proof = Proof {
        library,
        frames,
        at,
        steps: &steps,
    };
    write_steps(alloc, &proof, question, output)?;
    print(output, b"")
}

/// Writes all steps or the essential ones, in the form of the request.
fn write_steps<O: Write>(
    alloc: Global,
    proof: &Proof<'_>,
    question: &ProofQuestion<'_>,
    output: &mut O,
) -> Result<(), Fault>
    requires at { (1 ≤ proof.now.at) × (proof.now.at ≤ length proof.now.frames.now.statements) }
    requires provable { (s : Statement)
        × IsProvable proof.now.frames.now.statements proof.now.at s }
    requires rows { AreRows proof.now.frames.now.statements proof.now.at
        proof.now.frames.now.names proof.now.steps.now }
{
    if matches!(question.form, ProofForm::Page) {
        write_proof_page(alloc, proof, question, output)
    } else if question.essential_only {
        let essential = essential_table(alloc, proof.frames, proof.at, proof.steps)?;
        write_table(alloc, proof.frames, &essential, question, output)
    } else {
        write_table(alloc, proof.frames, proof.steps, question, output)
    }
}

/// Writes steps as lines or as a picture.
fn write_table<O: Write>(
    alloc: Global,
    frames: &Frames,
    steps: &ProofTable,
    question: &ProofQuestion<'_>,
    output: &mut O,
) -> Result<(), Fault> {
    if matches!(question.form, ProofForm::Picture) {
        write_dot(alloc, output, frames, question.label, steps)?;
    } else {
        write_step_lines(alloc, output, frames, steps)?;
    }
    Ok(())
}

/// Writes the page of the `$p`.
fn write_proof_page<O: Write>(
    alloc: Global,
    proof: &Proof<'_>,
    question: &ProofQuestion<'_>,
    output: &mut O,
) -> Result<(), Fault>
    requires at { (1 ≤ proof.now.at) × (proof.now.at ≤ length proof.now.frames.now.statements) }
    requires provable { (s : Statement)
        × IsProvable proof.now.frames.now.statements proof.now.at s }
    requires rows { AreRows proof.now.frames.now.statements proof.now.at
        proof.now.frames.now.names proof.now.steps.now }
{
    let essential = essential_table(alloc, proof.frames, proof.at, proof.steps)?;
    let axioms = positions_of(alloc, proof.frames, &proof.library.trace(question.label)?)?;
    let cited_by = positions_of(
        alloc,
        proof.frames,
        &proof.library.usage(question.label, false)?,
    )?;
    let statements = proof.library.statements();
    let typecodes = Typecodes::of(alloc, statements, proof.frames)?;
    let contents = PageContents {
        statements,
        frames: proof.frames,
        typecodes: &typecodes,
        at: proof.at,
        proof: Some(ProofSteps {
            steps: proof.steps,
            essential: &essential,
        }),
        related: related_items(&axioms, &cited_by),
    };
    write_page(alloc, output, &contents, !question.essential_only)?;
    Ok(())
}

/// Returns the axioms of a theorem and the theorems that cite it, for its page, without a
/// description.
fn related_items<'a>(axioms: &'a [u32], cited_by: &'a [u32]) -> RelatedItems<'a> {
    RelatedItems {
        axioms,
        cited_by,
        is_unproved: &[],
        description: None,
    }
}

/// Returns the positions of the statements with these labels.
fn positions_of(alloc: Global, frames: &Frames, labels: &[Word]) -> Result<Vec<u32>, AllocError> {
    let mut positions = Vec::new(alloc);
    for label in labels {
        if let Some(position) = frames.position(label.as_bytes()) {
            positions.push(u32::try_from(position).map_err(|_| AllocError)?)?;
        }
    }
    Ok(positions)
}
