//! The text of a `$p` with its proof, as it is written. `verification` judges it.
ghost use Rattle.proof_text.specs.Requests.{IsRequest};

use crate::compressed_code::compressed_code;
use crate::form::{TextFault, TextForm};
use crate::labels::{label_at, position_at};
use crate::lines::Lines;
use crate::request::TextRequest;
use crate::statement::statement_of;
use crate::walk::{Part, Walk};
use frame::Frames;
use mm_read::Stmt;
use std::alloc::{AllocError, Global};
use steps::ProofTable;

/// Returns the text of the `$p` of a request, with the proof of its steps.
///
/// Errors: `TooLarge` if a normal proof has more bytes than the request allows; `Memory`. Cost: the
/// size of the table and of the text.
pub(crate) fn written_text(
    alloc: Global,
    request: &TextRequest<'_>,
    table: &ProofTable,
) -> Result<Vec<u8>, TextFault>
    requires { IsRequest request.now }
{
    let Stmt::Prove { label, expr, .. } = statement_of(request) else {
        // A request names a `$p`.
        return Err(TextFault::TooLarge);
    };
    let mut lines = Lines::new(alloc, label.as_bytes())?;
    lines.push_word(b"$p")?;
    for symbol in expr.iter() {
        lines.push_word(symbol)?;
    }
    lines.push_word(b"$=")?;
    lines.end_line();
    match request.form {
        TextForm::Normal => push_normal(alloc, request, table, &mut lines)?,
        TextForm::Compressed => push_compressed(alloc, request, table, &mut lines)?,
    }
    lines.push_word(b"$.")?;
    Ok(lines.into_text()?)
}

/// Appends the tokens of the compressed proof.
fn push_compressed(
    alloc: Global,
    request: &TextRequest<'_>,
    table: &ProofTable,
    lines: &mut Lines,
) -> Result<(), AllocError>
    requires { IsRequest request.now }
{
    let mut mandatory = Vec::new(alloc);
    request.frames.mandatory(request.at, &mut mandatory)?;
    let code = compressed_code(alloc, request, table, &mandatory)?;
    lines.push_word(b"(")?;
    for position in code.listed.as_slice() {
        lines.push_word(label_at(request.frames, *position))?;
    }
    lines.push_word(b")")?;
    lines.push_letters(&code.letters)
}

/// Appends the tokens of the normal proof.
fn push_normal(
    alloc: Global,
    request: &TextRequest<'_>,
    table: &ProofTable,
    lines: &mut Lines,
) -> Result<(), TextFault> {
    if normal_size(alloc, request.frames, table)? > request.max_bytes {
        return Err(TextFault::TooLarge);
    }
    let mut walk = Walk::new(alloc, table, false)?;
    for _ in 0..request.max_bytes {
        match walk.next()? {
            Some(Part::Step(place)) => {
                let position = position_at(table, place);
                lines.push_word(label_at(request.frames, position))?;
            }
            Some(Part::Repeat(_)) => {}
            None => break,
        }
    }
    Ok(())
}

/// Returns the number of bytes of the labels of the normal proof, each with a space; the greatest
/// number if there are more.
///
/// Errors: an allocation fails.
fn normal_size(alloc: Global, frames: &Frames, table: &ProofTable) -> Result<usize, AllocError> {
    let mut sizes = Vec::with_capacity(alloc, table.len())?;
    let mut last = 0usize;
    for place in 0..table.len() {
        let label = label_at(frames, table.position(place));
        last = label.len().saturating_add(1);
        for taken in table.taken(place) {
            last = last.saturating_add(size_at(&sizes, *taken));
        }
        sizes.push(last)?;
    }
    Ok(last)
}

/// Returns the size at a place, or 0 if there is none.
fn size_at(sizes: &[usize], place: usize) -> usize {
    sizes.get(place).copied().unwrap_or(0)
}
