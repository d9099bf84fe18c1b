//! The run over the items of a proof, up to the first that cannot be done.

ghost use Rattle.std.specs.Prelude.{◌≡◌, List, take, IfErr, IfOk, IfSome, IsTrue, MatchOption};
ghost use Rattle.std.specs.Prelude.{OnOk, Some, ◌+◌};
ghost use Rattle.frame.specs.AtPosition.{HasLegalProperties};
ghost use Rattle.mm_lex.specs.Alphabet.{Name};
ghost use Rattle.mm_read.specs.declared.stmt.Stmt.{Stmt as Statement};
ghost use Rattle.proof_code.specs.ItemNumbers.{items_of};
ghost use Rattle.scope.specs.Active.{stmt_at};
ghost use Rattle.verify.specs.Counted.{work_in};
ghost use Rattle.verify.specs.Metered.{is_past, with_work};
ghost use Rattle.verify.specs.RunsItemByNumber.{AreEntriesIn, IsReady};
ghost use Rattle.verify.specs.Right.{IsProvable, IsRight};
ghost use Rattle.verify.specs.Stops.{HasHeardAll, IsFirstFailure, IsOutcome, StopsIn};
ghost use Rattle.verify.specs.Walk.{walk, walk_start};

use crate::citation::{Buffers, ProofContext, step};
use crate::label_table::{LabelEntry, fill_table};
use crate::listener::{Listener, Silent};
use crate::meter::Meter;
use crate::results::Results;
use frame::{FrameBuffers, Frames, PairBuffer};
use proof_code::Items;
use std::alloc::{AllocError, Global};
use subst::Stop;

/// Where the run over the items of a proof fails, and the results before it.
#[derive(Drop)]
pub enum Failure {
    /// The item at this index, from 0, cannot be done, or it would make the proof too heavy.
    Item { item: usize, results: Results },
    /// All items were done, and the results are not the statement's expression alone.
    End { results: Results },
}

/// How the run over the items of a proof ends.
#[derive(Drop)]
pub enum Outcome {
    /// The items are a right proof. These are the results: the statement's expression alone.
    Right(Results),
    /// The items are not a right proof.
    Failed(Failure),
}

/// Runs the items with these numbers up to the first that cannot be done, tells the listener of
/// each that was done, and returns how many were done. The table has the meaning of each label.
/// Counts the items, also the one that cannot be done.
///
/// Errors: the meter is past its limit with the results, the sizes and the disjointness so far,
/// behind an item or within a citation; an allocation fails, or the results would exceed the limit
/// set by `Results::set_symbol_limit`.
#[inline(always)]
pub(crate) fn run_items<L: Listener>(
    context: &ProofContext<'_>,
    table: &[LabelEntry],
    numbers: &[u32],
    buffers: &mut Buffers,
    meter: &mut Meter,
    listener: &mut L,
) -> Result<usize, Stop>
    requires ready { IsReady context.now }
    requires entries { (labels : List Name) × AreEntriesIn context.now labels table.now }
    ensures counted { (labels : List Name) → AreEntriesIn context.now labels table.now
        → IfOk result (λ done. meter.new ≡ with_work meter.old (work_in context.now (items_of labels numbers.now))) }
    ensures costly { (labels : List Name) → AreEntriesIn context.now labels table.now
        → IfErr result
        (λ stop. stop ≡ Stop.TooCostly
        → IsTrue (is_past (with_work meter.old (work_in context.now (items_of labels numbers.now))))) }
    ensures stops { (labels : List Name) → AreEntriesIn context.now labels table.now
        → IfOk result (λ done. StopsIn context.now (items_of labels numbers.now) done buffers.new.results.results) }
    ensures heard { (labels : List Name) → AreEntriesIn context.now labels table.now
        → L.follows (walk_start context.now.frames.now context.now.at) listener.old
        → IfOk result
        (λ done. L.follows
        (walk context.now.frames.now context.now.at
        (take done (items_of labels numbers.now)) buffers.new.results) listener.new) }
{
    buffers.results.start();
    for (done, number) in numbers.iter().enumerate() {
        let was_done = step(context, table, *number, buffers, meter, listener)?;
        if !was_done {
            count_items(meter, done + 1, &buffers.results)?;
            return Ok(done);
        }
        if meter.is_past_with(buffers.results.weight() as u64) {
            return Err(Stop::TooCostly);
        }
    }
    count_items(meter, numbers.len(), &buffers.results)?;
    Ok(numbers.len())
}

/// Counts so many items, each 1, and their results, which are the weight.
///
/// Errors: the count would be 2^64 or more.
fn count_items(meter: &mut Meter, items: usize, results: &Results) -> Result<(), AllocError>
    ensures { OnOk result (meter.new ≡ with_work meter.old (items + results.now.results.weight)) }
{
    meter.add(items as u64)?;
    meter.add(results.weight() as u64)
}

/// Runs the items of a proof of the statement at that position, tells the listener of each that was
/// done, and returns how the run ends.
///
/// Errors: an allocation fails, also in the listener. Cost: that of `check`, and of the listener.
/// Source: Metamath, 4.2.6 and appendix B.
pub fn run<L: Listener>(
    alloc: Global,
    frames: &Frames,
    at: usize,
    items: &Items,
    listener: &mut L,
) -> Result<Outcome, AllocError>
    requires { (s : Statement) × (stmt_at frames.now.statements at ≡ Some s) }
    ensures legal { HasLegalProperties frames.now.statements frames.now.names }
    ensures outcome { IfOk result (IsOutcome frames.now.statements at frames.now.names items.now) }
    ensures heard { L.follows (walk_start frames.now at) listener.old
        → IfOk result (λ outcome. HasHeardAll L.follows frames.now at items.now outcome listener.new) }
{
    let parts = items.parts();
    let mut table = Vec::new(alloc);
    fill_table(frames, at, parts.labels, &mut table)?;
    let mut buffers = Buffers {
        frame_buffers: FrameBuffers::new(alloc),
        pair_buffer: PairBuffer::new(alloc),
        results: Results::new(alloc),
    };
    let pairs = frames.active_pairs(at);
    let context = ProofContext { frames, at, pairs };
    let mut meter = Meter::new(None);
    let done = run_items(
        &context,
        &table,
        parts.numbers,
        &mut buffers,
        &mut meter,
        listener,
    )?;
    let results = buffers.results;
    let is_only = results.is_only(frames.expr(at));
    if done < parts.numbers.len() {
        return Ok(Outcome::Failed(Failure::Item {
            item: done,
            results,
        }));
    }
    if is_only {
        Ok(Outcome::Right(results))
    } else {
        Ok(Outcome::Failed(Failure::End { results }))
    }
}

/// Returns where the run over the items fails as a proof of the `$p` at that position, or `None` if
/// they are a right proof.
///
/// Errors: an allocation fails. Cost: that of `check`. Source: Metamath, 4.2.6 and appendix B.
pub fn first_failure(
    alloc: Global,
    frames: &Frames,
    at: usize,
    items: &Items,
) -> Result<Option<Failure>, AllocError>
    requires { (s : Statement) × IsProvable frames.now.statements at s }
    ensures right { IfOk result
        (λ found. MatchOption found (IsRight frames.now.statements at items.now)
        (λ _. ¬ IsRight frames.now.statements at items.now)) }
    ensures first { IfOk result
        (λ found. IfSome found (IsFirstFailure frames.now.statements at frames.now.names items.now)) }
{
    match run(alloc, frames, at, items, &mut Silent)? {
        Outcome::Right(_) => Ok(None),
        Outcome::Failed(failure) => Ok(Some(failure)),
    }
}
