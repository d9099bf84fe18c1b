//! Proofs that are given as their items.

ghost use Rattle.std.specs.Prelude.{◌≡◌, IfOk};
ghost use Rattle.verify.specs.Right.{IsAnswerTo};
ghost use Rattle.verify_pool.specs.Jobs.{AreJobs, IsJob, IsRightJob, IsFirstWrongJob};

use crate::checkers::Checkers;
use crate::gate::Gate;
use crate::outcome::Outcome;
use crate::pool::judge_all;
use crate::pool_size::PoolSize;
use crate::work::Work;
use frame::Frames;
use proof_code::Items;
use std::alloc::{AllocError, Global};
use std::marker::Model;
use std::thread::Threads;
use verify::{Answer, Checker, Meter};

/// A proof to be checked.
#[derive(Drop)]
pub struct Job {
    /// The position of the `$p`.
    pub at: usize,
    /// The items of its proof. A job without items is not right.
    pub items: Option<Items>,
}

/// Returns the least index, from 0, of a job that is not right; `None` if each is right.
///
/// The jobs are judged as by `judge_all`, with new checkers. Nothing is counted.
///
/// Errors and cost: those of `judge_all`.
pub fn check_all<G: Gate + Sync, R: Threads + Sync>(
    rt: &R,
    alloc: Global,
    frames: &Frames,
    jobs: &[Job],
    workers: PoolSize,
    gate: &G,
) -> Result<Option<usize>, AllocError>
    requires jobs { AreJobs frames.now.statements jobs.now }
    ensures { IfOk result (λ least. IsFirstWrongJob frames.now.statements jobs.now least) }
{
    let mut checkers = Checkers::new(alloc);
    let mut meter = Meter::new(None);
    let jobs = Jobs { frames, jobs };
    match judge_all(rt, &mut checkers, &jobs, workers, gate, &mut meter)? {
        Outcome::Wrong(index) => Ok(Some(index)),
        Outcome::AllRight => Ok(None),
        Outcome::TooCostly(_) => unreachable!(),
    }
}

/// Jobs, with the frames under which they are checked.
#[derive(Drop)]
struct Jobs<'a> {
    /// The frames.
    frames: &'a Frames,
    /// The jobs.
    jobs: &'a [Job],
}

impl<'a> Model for Jobs<'a> {
    ghost use Rattle.verify_pool.specs.Jobs.{AreJobs, JobList};

    ghost Value = { JobList };

    ghost view = { λ a. record { statements = a.frames.now.statements; jobs = a.jobs.now } };

    ghost invariant = { λ a. AreJobs a.frames.now.statements a.jobs.now };
}

impl<'a> Work for Jobs<'a> {
    ghost use Rattle.std.specs.Prelude.{length};
    ghost use Rattle.verify_pool.specs.Jobs.{IsRightAt};

    ghost count = { λ work. length work.jobs };

    ghost right = { λ work. IsRightAt work.statements work.jobs };

    ghost work = { λ _ _. 0 };

    fn count(&self) -> usize {
        self.jobs.len()
    }

    fn judge(
        &self,
        index: usize,
        checker: &mut Checker,
        _meter: &mut Meter,
    ) -> Result<Answer, AllocError> {
        check_job(self.frames, &self.jobs[index], checker)
    }
}

/// Returns whether the job is right.
fn check_job(frames: &Frames, job: &Job, checker: &mut Checker) -> Result<Answer, AllocError>
    requires { IsJob frames.now.statements job.now }
    ensures { IfOk result (λ answer. IsAnswerTo answer (IsRightJob frames.now.statements job.now)) }
{
    match &job.items {
        Some(items) => checker.check(frames, job.at, items),
        None => Ok(Answer::Wrong),
    }
}
