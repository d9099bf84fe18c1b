//! The jobs of one worker.

ghost use Rattle.std.specs.Prelude.{◌≡◌, ◌+◌, ◌*◌, ◌/◌, ◌%◌, ◌<◌, ◌≤◌, ℕ, length};
ghost use Rattle.verify_pool.specs.Stripes.{AreFound, AreFoundIn, IsFound};

use crate::checkers::{Found, Worker};
use crate::gate::{Gate, Place};
use crate::work::Work;
use std::alloc::AllocError;
use verify::{Answer, Checker, Meter};

/// Judges the jobs `first`, `first + step` and so on, and records what is found out about each. The
/// worker stops at the first that is not right, or when its own jobs alone are past the limit of
/// the meter, which it counts on from; also if a record cannot be appended.
///
/// Cost: that of the jobs that are judged.
pub(crate) fn judge_stripe<W: Work, G: Gate>(
    work: &W,
    first: usize,
    step: usize,
    meter: &Meter,
    worker: &mut Worker,
    gate: &G,
)
    requires step { (1 ≤ step) × (step ≤ 16) }
    requires first { first < step }
    ensures { AreFoundIn (W.right work.now) (W.work work.now) first step worker.new.founds.items }
{
    let mut own_meter = *meter;
    worker.founds.clear();
    let count = work.count();
    let mut index = first;
    while index < count {
        gate.pass(Place::Job(index));
        let found = find_out(work, index, &mut worker.checker, &mut own_meter);
        if worker.founds.push(found).is_err() {
            return;
        }
        if own_meter.is_past() || matches!(found, Found::Wrong(_)) {
            return;
        }
        index += step;
    }
}

/// Judges a job, and returns what was found out.
///
/// Cost: that of the job.
fn find_out<W: Work>(work: &W, index: usize, checker: &mut Checker, meter: &mut Meter) -> Found
    requires { index < W.count work.now }
    ensures { IsFound (W.right work.now) (W.work work.now) index result }
{
    let before = meter.count();
    match work.judge(index, checker, meter) {
        Ok(Answer::Proved) => Found::Right(meter.count() - before),
        Ok(Answer::Wrong) => Found::Wrong(meter.count() - before),
        Ok(Answer::TooCostly) | Err(AllocError) => Found::Unknown,
    }
}

/// Returns what the workers found out about a job. Without workers nothing is known.
///
/// Cost: a constant.
pub(crate) fn found_by<W: Work>(_work: &W, workers: &[Worker], index: usize) -> Found
    requires { AreFound (W.right _work.now) (W.work _work.now) workers.now }
    ensures { IsFound (W.right _work.now) (W.work _work.now) index result }
{
    let step = workers.len();
    if step == 0 {
        return Found::Unknown;
    }
    match workers[index % step].founds.get(index / step) {
        Some(found) => *found,
        None => Found::Unknown,
    }
}
