//! The steps of a proof up to its first fault.
ghost use Rattle.std.specs.Prelude.{◌≡◌, IfOk, Some, length, take};
ghost use Rattle.mm_read.specs.declared.stmt.Stmt.{Stmt as Statement};
ghost use Rattle.proof_code.specs.Writes.{WritesFinishedNormal};
ghost use Rattle.scope.specs.Active.{stmt_at};
ghost use Rattle.steps.specs.NormalSoFar.{IsNormalSoFar};
ghost use Rattle.steps.specs.Rows.{AreRows, steps_of};
ghost use Rattle.steps.specs.SoFar.{AreStepsSoFar, IsDoneUpTo};
ghost use Rattle.steps.specs.Stored.Drafted.{AreInBuffer, rows_of};

use crate::known_part::known_part;
use crate::steps_table::ProofTable;
use crate::table_draft::TableDraft;
use frame::Frames;
use mm_lex::Words;
use proof_code::{Items, items_or_none, normal};
use std::alloc::{AllocError, Global};
use verify::{Failure, Outcome, Results, run};

/// The steps of the first items of a proof.
#[derive(Drop)]
pub struct StepsSoFar {
    /// How many items were done: all, or those before the first that cannot be done.
    pub done: usize,
    /// Their steps.
    pub table: ProofTable,
    /// The places of the steps of the results on the stack.
    pub stack: Vec<usize>,
}

/// The steps of the known part of a normal proof.
#[derive(Drop)]
pub struct NormalSoFar {
    pub far: StepsSoFar,
    /// For each result on the stack its index in the stack of `far`, or `None` if it is not known.
    pub stack: Vec<Option<usize>>,
}

/// Returns the steps of the items of a proof of the statement at a position, up to the first that
/// cannot be done, each with its expression.
///
/// Errors: an allocation fails. Cost: that of `proof_table`.
/// Source: Metamath, 4.2.6 and appendix B.
pub fn steps_so_far(
    alloc: Global,
    frames: &Frames,
    at: usize,
    items: &Items,
) -> Result<StepsSoFar, AllocError>
    requires { (s : Statement) × (stmt_at frames.now.statements at ≡ Some s) }
    ensures steps { IfOk result (λ far. AreStepsSoFar frames.now.statements at
        (take far.done items.now) (steps_of far.table) far.stack.items) }
    ensures rows { IfOk result (λ far. AreRows frames.now.statements at frames.now.names far.table) }
    ensures done { IfOk result (λ far. IsDoneUpTo frames.now.statements at items.now far.done) }
{
    let count = items.parts().numbers.len();
    let mut draft = TableDraft::new(alloc);
    match run(alloc, frames, at, items, &mut draft)? {
        Outcome::Right(results) => Ok(so_far(draft, count, results)),
        Outcome::Failed(Failure::Item { item, results }) => Ok(so_far(draft, item, results)),
        Outcome::Failed(Failure::End { results }) => Ok(so_far(draft, count, results)),
    }
}

/// Returns the steps of a draft, whose expressions are ranges of the symbols of these results.
fn so_far(draft: TableDraft, done: usize, results: Results) -> StepsSoFar
    requires { AreInBuffer (length results.symbols) draft.stored.items }
    ensures done { result.done ≡ done }
    ensures table { result.table ≡ rows_of results.symbols draft }
    ensures stack { result.stack.items ≡ draft.stack.items }
{
    StepsSoFar {
        done,
        table: ProofTable::of_draft(draft.stored, results.into_symbols()),
        stack: draft.stack,
    }
}

/// Returns the steps of the part of a normal proof of the statement at a position that depends on no
/// unknown result, a token with `?` being one, up to the first citation that cannot be done.
///
/// Errors: an allocation fails; the label of a statement is no label, as of no parsed one. Cost:
/// those of `known_part` and `steps_so_far`, twice if a citation cannot be done.
pub fn normal_so_far(
    alloc: Global,
    frames: &Frames,
    at: usize,
    tokens: &Words,
) -> Result<NormalSoFar, AllocError>
    requires { (s : Statement) × (stmt_at frames.now.statements at ≡ Some s) }
    ensures { IfOk result (IsNormalSoFar frames.now.statements at tokens.now) }
{
    let part = known_part(alloc, frames, at, tokens, usize::MAX)?;
    let items = items_of_labels(alloc, &part.tokens)?;
    let far = steps_so_far(alloc, frames, at, &items)?;
    if far.done == items.parts().numbers.len() {
        return Ok(NormalSoFar {
            far,
            stack: part.stack,
        });
    }
    let part = known_part(alloc, frames, at, tokens, far.done)?;
    let items = items_of_labels(alloc, &part.tokens)?;
    Ok(NormalSoFar {
        far: steps_so_far(alloc, frames, at, &items)?,
        stack: part.stack,
    })
}

/// Returns a citation of each of these labels.
///
/// Errors: an allocation fails, or one of them is no label.
fn items_of_labels(alloc: Global, labels: &Words) -> Result<Items, AllocError>
    ensures { IfOk result (WritesFinishedNormal labels.now) }
{
    match items_or_none(normal(alloc, labels))? {
        Some(items) => Ok(items),
        None => Err(AllocError),
    }
}
