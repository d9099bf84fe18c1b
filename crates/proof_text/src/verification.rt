//! Verifies a proof that was written, and compares it with the steps that it was written from.
ghost use Rattle.std.specs.Prelude.{List, ◌≡◌, IfOk, IsTrue};
ghost use Rattle.mm_read.specs.declared.stmt.Stmt.{Stmt as Statement};
ghost use Rattle.steps.specs.Rows.{steps_of};
ghost use Rattle.steps.specs.Unfolded.{last_unfolded};
ghost use Rattle.verify.specs.Right.{IsProvable};
ghost use Rattle.proof_text.specs.ProofTexts.{WritesDerivation};
ghost use Rattle.proof_text.specs.Spelled.{AreDistinct};

use crate::same_steps::have_same_steps;
use crate::spelled_steps::SpelledSteps;
use explain::{items_of, labels_of};
use frame::Frames;
use mm_lex::Words;
use proof_code::is_compressed;
use std::alloc::{AllocError, Global};
use steps::ProofTable;
use verify::{Outcome, run};

/// Returns whether the tokens prove the `$p` at a position by the steps of a table.
///
/// Errors: those of `explain::labels_of`; an allocation fails. Cost: that of reading and verifying
/// the proof, and the size of the table.
pub(crate) fn proves_by_steps(
    alloc: Global,
    frames: &Frames,
    at: usize,
    tokens: &Words,
    table: &ProofTable,
) -> Result<bool, AllocError>
    requires provable { (s : Statement) × IsProvable frames.now.statements at s }
    requires distinct { AreDistinct (steps_of table.now) }
    ensures { (s : Statement) → IsProvable frames.now.statements at s
        → IfOk result (λ same. IsTrue same → WritesDerivation frames.now.statements at s tokens.now
        (last_unfolded frames.now.statements (steps_of table.now))) }
{
    let labels = labels_of(alloc, frames, at)?;
    let Some(items) = items_of(alloc, tokens, &labels)? else {
        return Ok(false);
    };
    let mut spelled = SpelledSteps::new(alloc, table, is_compressed(tokens))?;
    let Outcome::Right(_) = run(alloc, frames, at, &items, &mut spelled)? else {
        return Ok(false);
    };
    if !spelled.is_whole() {
        return Ok(false);
    }
    // No clause of `run` says that the listener still has the same table.
    Ok(have_same_steps(table, spelled.table))
}
