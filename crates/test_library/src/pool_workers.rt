//! Two workers verify two correct proofs in parallel, each a job of `verify_pool`, also after a
//! failed allocation.
ghost use Rattle.std.specs.Prelude.{◌≡◌, ◌≤◌, ◌∷◌, ◌++◌, [], IsTrue};
ghost use Rattle.mm_read.specs.Statements.{Database, AreShaped, IsShaped};
ghost use Rattle.scope.specs.Active.{bare};
ghost use Rattle.verify_pool.specs.Jobs.{AreJobs};

use crate::pushed_statements::push_statement;
use crate::rendezvous::Rendezvous;
use frame::Frames;
use mm_lex::Words;
use mm_read::{Stmt, read};
use proof_code::{CodeFault, Items, normal};
use scope::Scope;
use std::alloc::Global;
use std::thread::Threads;
use verify_pool::{Gate, Job, OpenGate, PoolSize, check_all};

/// Two correct proofs.
const TWO_PROOFS: &[u8] = b"$c |- o $. a $a |- o $. p $p |- o $= a $. q $p |- o $= p $.";

/// If an allocation fails in the first call, a second one returns the answer.
#[test]
fn answered_after_a_failed_allocation(rt: HostRuntime) {
    let mut answer = answer_of(&rt, rt.alloc(), TWO_PROOFS, 2, &OpenGate);
    if answer.is_none() {
        answer = answer_of(&rt, rt.alloc(), TWO_PROOFS, 2, &OpenGate);
    }
    assert_eq!(rt; answer, Some(None));
}

/// The first two jobs are judged in parallel by two workers: each waits at the gate
/// (`verify_pool::Gate`) until the other has arrived there, or gives up.
#[test]
fn gate_two_jobs(rt: HostRuntime) {
    let rendezvous = Rendezvous::new();
    let answer = answer_of(&rt, rt.alloc(), TWO_PROOFS, 2, &rendezvous);
    assert_eq!(rt; answer, Some(None));
    assert!(rt; rendezvous.has_not_timed_out());
}

/// Returns the answer of `check_all` for the proofs of a text: the index of the first wrong one, if
/// one is wrong. Returns `None` in its place if the text does not read, a statement is not legal,
/// or an allocation fails, except twice in a row for the items of one proof (`push_job`).
fn answer_of<G: Gate + Sync, R: Threads + Sync>(
    rt: &R,
    alloc: Global,
    text: &[u8],
    workers: usize,
    gate: &G,
) -> Option<Option<usize>>
    requires { (1 ≤ workers) × (workers ≤ 16) }
{
    match read(alloc, text) {
        Ok(statements) => first_wrong(rt, alloc, &statements, workers, gate),
        Err(_) => None,
    }
}

/// Returns the same for the proofs of these statements.
fn first_wrong<G: Gate + Sync, R: Threads + Sync>(
    rt: &R,
    alloc: Global,
    statements: &[Stmt],
    workers: usize,
    gate: &G,
) -> Option<Option<usize>>
    requires shaped { AreShaped statements.now }
    requires workers { (1 ≤ workers) × (workers ≤ 16) }
{
    let mut frames = Frames::new(alloc);
    let mut jobs = Vec::new(alloc);
    let answer = first_wrong_in(rt, alloc, statements, workers, gate, &mut jobs, &mut frames);
    // An explicit `drop` is proved once for each type; a drop at the end of the scope would be
    // proved here.
    drop(jobs);
    drop(frames);
    answer
}

/// Returns the same, with jobs and frames to fill, which are empty.
fn first_wrong_in<G: Gate + Sync, R: Threads + Sync>(
    rt: &R,
    alloc: Global,
    statements: &[Stmt],
    workers: usize,
    gate: &G,
    jobs: &mut Vec<Job>,
    frames: &mut Frames,
) -> Option<Option<usize>>
    requires shaped { AreShaped statements.now }
    requires workers { (1 ≤ workers) × (workers ≤ 16) }
    requires none { frames.old.statements ≡ [] }
    requires jobs { AreJobs frames.old.statements jobs.old.items }
{
    if push_jobs(alloc, statements, frames, jobs) {
        check_with_retry(rt, alloc, frames, jobs.as_slice(), workers, gate)
    } else {
        None
    }
}

/// Returns the index of the first job that is wrong, if one is. Repeats the call if an allocation
/// fails.
fn check_with_retry<G: Gate + Sync, R: Threads + Sync>(
    rt: &R,
    alloc: Global,
    frames: &Frames,
    jobs: &[Job],
    workers: usize,
    gate: &G,
) -> Option<Option<usize>>
    requires jobs { AreJobs frames.now.statements jobs.now }
    requires workers { (1 ≤ workers) × (workers ≤ 16) }
{
    match check_all(rt, alloc, frames, jobs, PoolSize::new(workers), gate) {
        Ok(answer) => Some(answer),
        Err(_) => check_all(rt, alloc, frames, jobs, PoolSize::new(workers), gate).ok(),
    }
}

/// Adds the statements to the frames, and a job for each proof, and returns whether all are added.
fn push_jobs(alloc: Global, statements: &[Stmt], frames: &mut Frames, jobs: &mut Vec<Job>) -> bool
    requires shaped { AreShaped statements.now }
    requires none { frames.old.statements ≡ [] }
    requires jobs { AreJobs frames.old.statements jobs.old.items }
    ensures { IsTrue result → AreJobs frames.new.statements jobs.new.items }
{
    let mut scope = Scope::new(alloc);
    let pushed = push_jobs_with_scope(alloc, statements, &mut scope, frames, jobs);
    drop(scope);
    pushed
}

/// Does the same, with a scope to which the statements are added too.
fn push_jobs_with_scope(
    alloc: Global,
    statements: &[Stmt],
    scope: &mut Scope,
    frames: &mut Frames,
    jobs: &mut Vec<Job>,
) -> bool
    requires shaped { AreShaped statements.now }
    requires same { scope.old.statements ≡ frames.old.statements }
    requires jobs { AreJobs frames.old.statements jobs.old.items }
    ensures { IsTrue result → AreJobs frames.new.statements jobs.new.items }
{
    for stmt in statements {
        if !push_statement_and_job(alloc, stmt, scope, frames, jobs) {
            return false;
        }
    }
    true
}

/// Adds one statement, and its job if it is a `$p`, and returns whether both are added.
fn push_statement_and_job(
    alloc: Global,
    stmt: &Stmt,
    scope: &mut Scope,
    frames: &mut Frames,
    jobs: &mut Vec<Job>,
) -> bool
    requires shaped { IsShaped stmt.now }
    requires same { scope.old.statements ≡ frames.old.statements }
    requires jobs { AreJobs frames.old.statements jobs.old.items }
    ensures same { IsTrue result → scope.new.statements ≡ frames.new.statements }
    ensures jobs { IsTrue result → AreJobs frames.new.statements jobs.new.items }
{
    if push_statement(scope, frames, stmt).is_none() {
        return false;
    }
    push_job(alloc, frames, stmt, jobs).is_some()
}

/// Returns the items of a normal proof. Repeats the call if an allocation fails.
fn items_with_retry(alloc: Global, tokens: &Words) -> Result<Items, CodeFault> {
    match normal(alloc, tokens) {
        Err(CodeFault::Memory) => normal(alloc, tokens),
        items => items,
    }
}

/// Adds the job of the statement that was pushed last, if it is a `$p`. Returns `None` if the job
/// cannot be pushed. A proof whose items are not returned, even for lack of memory, gets a job
/// without items, which is wrong.
fn push_job(alloc: Global, frames: &Frames, stmt: &Stmt, jobs: &mut Vec<Job>) -> Option<()>
    requires { (S : Database) × (frames.now.statements ≡ S ++ bare stmt.now ∷ []) × AreJobs S jobs.old.items }
    ensures { AreJobs frames.now.statements jobs.new.items }
{
    if let Stmt::Prove { proof, .. } = stmt {
        let at = frames.len();
        let items = items_with_retry(alloc, proof).ok();
        jobs.push(Job { at, items }).ok()?;
    }
    Some(())
}
