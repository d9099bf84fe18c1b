//! The first fault of a proof.
ghost use Rattle.std.specs.Prelude.{◌≡◌, ◌<◌, ◌≤◌, length, slice_get, IfOk, IfSome, MatchOption};
ghost use Rattle.std.specs.Prelude.{Some};
ghost use Rattle.mm_read.specs.declared.stmt.Stmt.{Stmt as Statement};
ghost use Rattle.scope.specs.Active.{stmt_at};
ghost use Rattle.proof_code.specs.declared.item.Item.{Item};
ghost use Rattle.explain.specs.FirstFault.{IsItemFaultAfter, IsEndReason, IsFirstFault};
ghost use Rattle.explain.specs.declared.reason.ItemFault.TheVariants.{TooManySymbols};
ghost use Rattle.explain.specs.declared.reason.ItemFault.TheVariants.{NoMarkedResult};
ghost use Rattle.verify.specs.Right.{IsProvable, IsRight};
ghost use Rattle.verify.specs.Stops.{IsNotOnly, IsStopped};

use crate::citation::citation_fault;
use crate::excerpt::Excerpt;
use crate::reason::{ItemFault, Reason};
use frame::Frames;
use proof_code::Items;
use std::alloc::{AllocError, Global};
use verify::{Failure, Results, first_failure};

/// Returns the first fault of the run over the items of a proof of the `$p` at a position, or
/// `None` if they are a right proof of it.
///
/// Errors: an allocation fails. Cost: that of `verify::check`, and once more that of the citation
/// that fails.
pub fn first_fault(
    alloc: Global,
    frames: &Frames,
    at: usize,
    items: &Items,
) -> Result<Option<Reason>, AllocError>
    requires { (s : Statement) × IsProvable frames.now.statements at s }
    ensures right { IfOk result
        (λ r. MatchOption r (IsRight frames.now.statements at items.now)
        (λ _. ¬ IsRight frames.now.statements at items.now)) }
    ensures first { (s : Statement) → stmt_at frames.now.statements at ≡ Some s
        → IfOk result (λ r. IfSome r (IsFirstFault frames.now.statements frames.now.names at s items.now)) }
{
    let Some(failure) = first_failure(alloc, frames, at, items)? else {
        return Ok(None);
    };
    match failure {
        Failure::Item { item, mut results } => {
            let fault = item_fault(alloc, frames, at, items, item, &mut results)?;
            Ok(Some(Reason::Item { item, fault }))
        }
        Failure::End { results } => Ok(Some(end_reason(alloc, &results)?)),
    }
}

/// Returns the fault of the item at which the run stops. The number of an item is 0 for a mark,
/// from 1 to the count of the labels for a citation, and greater for a recall.
fn item_fault(
    alloc: Global,
    frames: &Frames,
    at: usize,
    items: &Items,
    item: usize,
    results: &mut Results,
) -> Result<ItemFault, AllocError>
    requires position { (1 ≤ at) × (at ≤ length frames.now.statements) }
    requires item { item < length items.now }
    requires stopped { IsStopped frames.now.statements at frames.now.names items.now item results.old.results }
    ensures { (failing : Item) → slice_get items.now item ≡ Some failing
        → IfOk result (IsItemFaultAfter frames.now at results.old failing) }
{
    let parts = items.parts();
    let number = parts.numbers[item] as usize;
    if number == 0 {
        return Ok(ItemFault::NoMarkedResult);
    }
    let positions = frames.positions(parts.labels)?;
    if number > positions.len() {
        return Ok(recall_fault(results, number - positions.len() - 1));
    }
    match positions[number - 1] {
        Some(statement) => citation_fault(alloc, frames, at, statement, results),
        None => Ok(ItemFault::UnknownLabel),
    }
}

/// Returns the fault of a recall that fails. The index counts the marked results, from 0.
fn recall_fault(results: &Results, index: usize) -> ItemFault
    ensures marked { index < length results.now.results.saved → result ≡ TooManySymbols }
    ensures unmarked { length results.now.results.saved ≤ index → result ≡ NoMarkedResult }
{
    if index < results.saved_len() {
        ItemFault::TooManySymbols
    } else {
        ItemFault::NoMarkedResult
    }
}

/// Returns the reason at the end of a run that does not leave the theorem's expression as its only
/// result.
fn end_reason(alloc: Global, results: &Results) -> Result<Reason, AllocError>
    ensures { IfOk result (IsEndReason results.now.results.stack) }
{
    let count = results.len();
    if count != 1 {
        return Ok(Reason::ResultCount { count });
    }
    let proved = Excerpt::new(alloc, results.get(0))?;
    Ok(Reason::OtherTheorem { proved })
}
