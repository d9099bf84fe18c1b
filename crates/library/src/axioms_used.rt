//! The axioms of a proof: the items that its tokens write, the `$a` that it cites, and those that
//! the `$p` it cites rest on.
ghost use Rattle.std.specs.Prelude.{◌≡◌, ◌≤◌, length, Some, IfOk, OnOk, MatchOption};
ghost use Rattle.frame.specs.AtPosition.{HasLabelsOnce};
ghost use Rattle.library.specs.UseMarks.{cited_position, mark, Marks};
ghost use Rattle.library.specs.Uses.{HasItems, ItemsCite, Uses, AreLabelsOf};
ghost use Rattle.mm_read.specs.declared.stmt.Stmt.{Stmt as Statement};
ghost use Rattle.scope.specs.Active.{bares};
ghost use Rattle.verify.specs.Right.{IsProvable, IsRight};

use crate::checked_database::CheckedDatabase;
use frame::Frames;
use mm_lex::{Word, Words};
use mm_read::Stmt;
use proof_code::{Items, is_compressed, items_or_none, normal, packed};
use std::alloc::{AllocError, Global};

/// Returns the items of the `$p` at a position, which are right; `None` if there is no `$p`.
///
/// Errors: an allocation fails. Cost: the size of the proof.
pub(crate) fn items_of(database: &CheckedDatabase, at: usize) -> Result<Option<Items>, AllocError>
    requires { (1 ≤ at) × (at ≤ length database.now) }
    ensures { IfOk result (λ found. MatchOption found ((s : Statement) → ¬ IsProvable database.now at s)
        (λ items. HasItems database.now at items × IsRight (bares database.now) at items)) }
{
    let Stmt::Prove { proof, .. } = database.statement(at) else {
        return Ok(None);
    };
    if !is_compressed(proof) {
        return items_or_none(normal(database.alloc(), proof));
    }
    let mut mandatory = Vec::new(database.alloc());
    database.frames().mandatory(at, &mut mandatory)?;
    let mut labels = Words::new(database.alloc());
    for position in mandatory.as_slice() {
        match database.statement(*position as usize) {
            Stmt::Float { label, .. } | Stmt::Ess { label, .. } => labels.push(label.as_bytes())?,
            _ => unreachable!(),
        }
    }
    items_or_none(packed(database.alloc(), proof, &labels))
}

/// Returns the labels of the `$a` that the `$p` at a position uses, each once, in order.
///
/// Errors: an allocation fails. Cost: that of the proofs that it rests on, each read once, and a
/// byte for each statement before it.
///
/// Marks the position of the `$p`, and each position whose statement is cited by the proof of a
/// marked `$p`. A proof cites earlier statements only, so one walk down the positions is enough.
/// (`marks` has a flag for each position; these are not the marks of proof code.)
pub(crate) fn axioms_used(database: &CheckedDatabase, at: usize) -> Result<Vec<Word>, AllocError>
    requires { (s : Statement) × IsProvable database.now at s }
    ensures { IfOk result (λ labels. AreLabelsOf database.now (Uses database.now at) labels.items) }
{
    let statements = database.statements();
    let mut marks = vec![in database.alloc(); false; at]?;
    marks[at - 1] = true;
    let mut position = at;
    while position > 0 {
        if marks[position - 1] {
            match items_of(database, position)? {
                Some(items) => mark_cited(database.frames(), items, &mut marks)?,
                None => {}
            }
        }
        position -= 1;
    }
    let mut labels = Vec::new(database.alloc());
    for (index, marked) in marks.iter().enumerate() {
        if *marked {
            if let Stmt::Axiom { label, .. } = &statements[index] {
                labels.push(label.copy(database.alloc())?)?;
            }
        }
    }
    Ok(labels)
}

/// Marks the positions that the items cite.
fn mark_cited(frames: &Frames, items: Items, marks: &mut [bool]) -> Result<(), AllocError>
    requires once { HasLabelsOnce frames.now.statements }
    ensures { OnOk result (Marks (ItemsCite frames.now.statements items) marks.old marks.new) }
{
    let parts = items.parts();
    let label_positions = frames.positions(parts.labels)?;
    for number in parts.numbers {
        mark_position(marks, cited_position(&label_positions, *number));
    }
    Ok(())
}

/// Returns the position that an item cites, by its number.
fn cited_position(label_positions: &[Option<usize>], number: u32) -> Option<usize>
    ensures { result ≡ cited_position label_positions.now number }
{
    let index = (number as usize).checked_sub(1)?;
    *label_positions.get(index)?
}

/// Marks a position, if the marks have a flag for it.
fn mark_position(marks: &mut [bool], position: Option<usize>)
    ensures { marks.new ≡ mark position marks.old }
{
    if let Some(position) = position {
        if position > 0 && position <= marks.len() {
            marks[position - 1] = true;
        }
    }
}
