//! The statements that assertions rest on: those that their proofs cite, and those that the proofs
//! of these cite.
use frame::Frames;
use library::Library;
use mm_lex::Words;
use mm_read::Stmt;
use std::alloc::{AllocError, Global};

/// Returns for each statement whether it is marked: if it has one of the labels, or the proof of a
/// marked statement cites or lists it. A proof cites only earlier statements, so the statements are
/// visited from the last to the first. Of a later statement that is only listed, which is no
/// citation, the proof is not visited.
pub(crate) fn cited_marks(
    alloc: Global,
    library: &Library,
    labels: &[&str],
) -> Result<Vec<bool>, AllocError> {
    let statements = library.statements();
    let frames = library.frames();
    let mut marks = vec![in alloc; false; statements.len()]?;
    for label in labels {
        mark(&mut marks, frames.position(label.as_bytes()));
    }
    for (index, statement) in statements.iter().enumerate().rev() {
        if let Stmt::Prove { proof, .. } = statement {
            if is_marked(&marks, index + 1) {
                mark_cited(frames, proof, &mut marks);
            }
        }
    }
    Ok(marks)
}

/// Marks the statements that a proof cites or lists: by all tokens of a normal proof, by those in
/// the parentheses of a compressed one.
fn mark_cited(frames: &Frames, proof: &Words, marks: &mut [bool]) {
    for token in proof.iter() {
        if token == b")".as_slice() {
            return;
        }
        mark(marks, frames.position(token));
    }
}

/// Marks the statement at a position, counted from 1, if there is one.
pub(crate) fn mark(marks: &mut [bool], position: Option<usize>) {
    if let Some(position) = position {
        if position > 0 && position <= marks.len() {
            marks[position - 1] = true;
        }
    }
}

/// Returns whether the statement at a position is marked.
pub(crate) fn is_marked(marks: &[bool], position: usize) -> bool {
    position > 0 && position <= marks.len() && marks[position - 1]
}
