//! Finds all `$p` that are not proved.
ghost use Rattle.std.specs.Prelude.{◌≡◌, ◌-◌, ◌<◌, ◌≤◌, [], length, IfOk, OnOk};
ghost use Rattle.scope.specs.Active.{bares};
ghost use Rattle.unproved.specs.StatementRanges.{IsFirstUnprovedIn, wrong_index};
ghost use Rattle.unproved.specs.Unproved.{AreUnproved};

use crate::statement_range::StatementRange;
use frame::Frames;
use mm_read::Stmt;
use proof_code::is_unfinished;
use std::alloc::{AllocError, Global};
use std::thread::Threads;
use verify::Meter;
use verify_pool::{Checkers, OpenGate, Outcome, PoolSize, judge_all, judge_here};

/// The largest number of statements in a range. Ranges are judged one after another.
const MAX_RANGE_STATEMENTS: usize = 2_048;

/// Fewer statements than this are judged on the calling thread: starting threads would cost more.
const MIN_FOR_THREADS: usize = 32;

/// Statements with their frames, the number of workers that judge them, and `rt`, which starts the
/// threads.
#[derive(Drop)]
pub(crate) struct Search<'a, R: Threads + Sync> {
    pub(crate) rt: &'a R,
    pub(crate) alloc: Global,
    pub(crate) frames: &'a Frames,
    pub(crate) statements: &'a [Stmt],
    pub(crate) workers: PoolSize,
}

/// Returns the positions of the `$p` that are not proved, in order.
///
/// Errors: an allocation fails. Cost: that of the proofs, divided among the workers. The calling
/// thread may judge proofs again: those after a wrong one in its range, those that a worker puts
/// off for lack of memory, or all of a range if `judge_all` judges all jobs again.
pub(crate) fn find_unproved<R: Threads + Sync>(
    search: &Search<'_, R>,
) -> Result<Vec<usize>, AllocError>
    requires { search.now.frames.now.statements ≡ bares search.now.statements.now }
    ensures { IfOk result (λ positions.
        AreUnproved search.now.statements.now 0 (length search.now.statements.now) positions.items) }
{
    let mut checkers = Checkers::new(search.alloc);
    let mut positions = Vec::new(search.alloc);
    let mut start = 0;
    while start < search.statements.len() {
        let end = range_end(search.statements, start);
        push_unproved_of_range(search, &mut checkers, start, end, &mut positions)?;
        start = end;
    }
    Ok(positions)
}

/// Returns the position where the range after `start` ends. A range ends with its first `$p` whose
/// proof is unfinished; if it has none, after `MAX_RANGE_STATEMENTS` statements or with the last
/// statement of all.
fn range_end(statements: &[Stmt], start: usize) -> usize
    requires { start < length statements.now }
    ensures later { start < result }
    ensures within { result ≤ length statements.now }
{
    let count = (statements.len() - start).min(MAX_RANGE_STATEMENTS);
    for (index, statement) in statements[start..start + count].iter().enumerate() {
        if is_unfinished_proof(statement) {
            return start + index + 1;
        }
    }
    start + count
}

/// Returns whether a statement is a `$p` with an unfinished proof.
fn is_unfinished_proof(statement: &Stmt) -> bool {
    match statement {
        Stmt::Prove { proof, .. } => is_unfinished(proof),
        _ => false,
    }
}

/// Appends the positions of the unproved `$p` after the first `start` statements, up to `end`. The
/// workers find the first of them, and the calling thread the others.
fn push_unproved_of_range<R: Threads + Sync>(
    search: &Search<'_, R>,
    checkers: &mut Checkers,
    start: usize,
    end: usize,
    positions: &mut Vec<usize>,
) -> Result<(), AllocError>
    requires frames_are { search.now.frames.now.statements ≡ bares search.now.statements.now }
    requires order { start ≤ end }
    requires within { end ≤ length search.now.statements.now }
    requires before { AreUnproved search.now.statements.now 0 start positions.old.items }
    ensures { OnOk result (AreUnproved search.now.statements.now 0 end positions.new.items) }
{
    let mut start = start;
    let mut found = first_unproved_index(search, checkers, start, end, search.workers)?;
    while let Some(index) = found {
        start = start + index + 1;
        positions.push(start)?;
        found = first_unproved_index(search, checkers, start, end, PoolSize::new(1))?;
    }
    Ok(())
}

/// Returns the index, from 0 after the first `start` statements, of the first `$p` up to `end` that
/// is not proved, or `None` if each is proved. One worker, or few statements, need no thread.
#[tactic(auto, using(crate::proofs::RangeLemmas::first_unproved))]
fn first_unproved_index<R: Threads + Sync>(
    search: &Search<'_, R>,
    checkers: &mut Checkers,
    start: usize,
    end: usize,
    workers: PoolSize,
) -> Result<Option<usize>, AllocError>
    requires frames_are { search.now.frames.now.statements ≡ bares search.now.statements.now }
    requires order { start ≤ end }
    requires within { end ≤ length search.now.statements.now }
    ensures { IfOk result (IsFirstUnprovedIn search.now.statements.now start end) }
{
    let range = StatementRange {
        frames: search.frames,
        statements: search.statements,
        start,
        end,
    };
    let mut meter = Meter::new(None);
    if end - start < MIN_FOR_THREADS {
        let outcome = judge_here(checkers, &range, &mut meter)?;
        return Ok(wrong_index(outcome));
    }
    let outcome = judge_all(search.rt, checkers, &range, workers, &OpenGate, &mut meter)?;
    Ok(wrong_index(outcome))
}

/// Returns the index of the job that is wrong, if the outcome has one.
fn wrong_index(outcome: Outcome) -> Option<usize>
    ensures { result ≡ wrong_index outcome }
{
    match outcome {
        Outcome::Wrong(index) => Some(index),
        Outcome::AllRight | Outcome::TooCostly(_) => None,
    }
}
