//! Judging all jobs, in parallel or on the calling thread.

ghost use Rattle.std.specs.Prelude.{◌≡◌, ◌<◌, ◌≤◌, ℕ, false, length, IfOk};
ghost use Rattle.verify.specs.Metered.{is_past};
ghost use Rattle.verify_pool.specs.FirstStop.{IsFirstStop};
ghost use Rattle.verify_pool.specs.Stripes.{AreFound, IsFound, IsSettled};

use crate::checkers::{Checkers, Found, Worker};
use crate::gate::{Gate, OpenGate, Place};
use crate::outcome::Outcome;
use crate::pool_size::PoolSize;
use crate::stripes::{found_by, judge_stripe};
use crate::work::Work;
use std::alloc::AllocError;
use std::thread;
use std::thread::Threads;
use verify::{Answer, Checker, Meter};

/// Judges the jobs in order, up to the first that is not right or with which the work is past the
/// limit of the meter, and returns the outcome; counts the work on the meter.
///
/// The jobs are dealt out in turn to the workers; no more workers take part than there are jobs.
/// Each worker has a checker of its own, runs on a thread that `rt` starts, if it can, and records
/// which of its jobs are right and what they count; it stops at its first job that is not right,
/// and when its own jobs alone are past the limit. Then the calling thread adds these up in order,
/// and judges itself what a worker could not judge: proofs that need more memory than it has, jobs
/// for which an allocation failed or that were too costly, and those behind. A thread passes the
/// gate, with `Place::Job(index)`, before it judges the job of that index. If an allocation fails
/// while workers are made or for the calling thread, and the gate admits heavy proofs, the workers
/// are dropped, and the calling thread judges all jobs again. With one worker, or at most one job,
/// no worker is made: the calling thread judges all.
///
/// Errors: an allocation fails while the calling thread judges all jobs, or the count would be 2^64
/// or more. If the gate admits no heavy proofs, also if an allocation fails in one of the other
/// cases, or if a heavy proof has to be judged. Cost: that of the jobs, divided among the workers,
/// and once more if the jobs are judged again.
pub fn judge_all<W: Work + Sync, G: Gate + Sync, R: Threads + Sync>(
    rt: &R,
    checkers: &mut Checkers,
    work: &W,
    workers: PoolSize,
    gate: &G,
    meter: &mut Meter,
) -> Result<Outcome, AllocError>
    requires { is_past meter.old ≡ false }
    ensures { IfOk result (IsFirstStop (W.right work.now) (W.work work.now) (W.count work.now) meter.old meter.new) }
{
    let are_admitted = gate.admits_heavy();
    checkers.admit_heavy(are_admitted);
    let count = workers.count().min(work.count().max(1));
    if count > 1 {
        let start = *meter;
        let outcome = judge_by_workers(rt, checkers, work, count, gate, meter);
        if outcome.is_ok() || !are_admitted {
            return outcome;
        }
        *meter = start;
        checkers.drop_workers();
    }
    judge_in_order(work, &[], &mut checkers.calling, gate, meter)
}

/// Judges the jobs in order, by this number of workers.
///
/// Errors: a checker cannot be made, or those of `judge_in_order`. Cost: that of the jobs, divided
/// among the workers, and of those that no worker could judge.
fn judge_by_workers<W: Work + Sync, G: Gate + Sync, R: Threads + Sync>(
    rt: &R,
    checkers: &mut Checkers,
    work: &W,
    count: usize,
    gate: &G,
    meter: &mut Meter,
) -> Result<Outcome, AllocError>
    requires count { (1 ≤ count) × (count ≤ 16) }
    requires within { is_past meter.old ≡ false }
    ensures { IfOk result (IsFirstStop (W.right work.now) (W.work work.now) (W.count work.now) meter.old meter.new) }
{
    checkers.add_workers(count)?;
    let Checkers {
        calling,
        workers,
        ..
    } = checkers;
    let workers = &mut workers[..count];
    judge_stripes(rt, work, workers, gate, meter);
    judge_in_order(work, workers, calling, gate, meter)
}

/// Judges the jobs by these workers, to whom they are dealt out in turn.
///
/// Cost: that of the jobs, divided among the workers.
fn judge_stripes<W: Work + Sync, G: Gate + Sync, R: Threads + Sync>(
    rt: &R,
    work: &W,
    workers: &mut [Worker],
    gate: &G,
    meter: &Meter,
)
    requires { (1 ≤ length workers.old) × (length workers.old ≤ 16) }
    ensures { AreFound (W.right work.now) (W.work work.now) workers.new }
{
    let step = workers.len();
    let judge = |first: usize, worker: &mut Worker| judge_stripe(
        work, first, step, meter, worker, gate,
    );
    thread::for_each_mut(rt, workers, step, &judge);
}

/// Judges the jobs in order on the calling thread, as `judge_all` does with one worker. It admits
/// heavy proofs and has no gate.
///
/// Errors: an allocation fails, or the count would be 2^64 or more. Cost: that of the jobs.
pub fn judge_here<W: Work>(
    checkers: &mut Checkers,
    work: &W,
    meter: &mut Meter,
) -> Result<Outcome, AllocError>
    requires { is_past meter.old ≡ false }
    ensures { IfOk result (IsFirstStop (W.right work.now) (W.work work.now) (W.count work.now) meter.old meter.new) }
{
    checkers.admit_heavy(true);
    judge_in_order(work, &[], &mut checkers.calling, &OpenGate, meter)
}

/// Goes over the jobs in order, up to the first that is not right or too costly. What the workers
/// found out is not judged again.
///
/// Errors: an allocation fails, a proof is heavy and the checker takes none, or the count would be
/// 2^64 or more. Cost: a constant a job, and that of those that no worker could judge.
fn judge_in_order<W: Work, G: Gate>(
    work: &W,
    workers: &[Worker],
    checker: &mut Checker,
    gate: &G,
    meter: &mut Meter,
) -> Result<Outcome, AllocError>
    requires found { AreFound (W.right work.now) (W.work work.now) workers.now }
    requires within { is_past meter.old ≡ false }
    ensures { IfOk result (IsFirstStop (W.right work.now) (W.work work.now) (W.count work.now) meter.old meter.new) }
{
    for index in 0..work.count() {
        let found = found_by(work, workers, index);
        match settle(work, index, found, checker, gate, meter)? {
            Answer::Proved => {}
            Answer::Wrong => return Ok(Outcome::Wrong(index)),
            Answer::TooCostly => return Ok(Outcome::TooCostly(index)),
        }
    }
    Ok(Outcome::AllRight)
}

/// Returns the answer on a job, by what a worker found out, or else by judging it. Counts its work.
///
/// Errors: those of `judge_in_order`. Cost: a constant, or that of the job.
fn settle<W: Work, G: Gate>(
    work: &W,
    index: usize,
    found: Found,
    checker: &mut Checker,
    gate: &G,
    meter: &mut Meter,
) -> Result<Answer, AllocError>
    requires index { index < W.count work.now }
    requires found { IsFound (W.right work.now) (W.work work.now) index found }
    ensures { IfOk result (IsSettled (W.right work.now index) (W.work work.now index) meter.old meter.new) }
{
    let answer = match found {
        Found::Right(units) => {
            meter.add(units)?;
            Answer::Proved
        }
        Found::Wrong(units) => {
            meter.add(units)?;
            Answer::Wrong
        }
        Found::Unknown => {
            gate.pass(Place::Job(index));
            work.judge(index, checker, meter)?
        }
    };
    if meter.is_past() {
        return Ok(Answer::TooCostly);
    }
    Ok(answer)
}
