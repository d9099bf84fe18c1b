//! Appends the statements of a text to the rules and the frames and counts their work, up to the
//! first that breaks a rule or is too costly. With several workers, the proofs of a first part of a
//! long text are judged ahead: while the statements are appended.
ghost use Rattle.std.specs.Prelude.{◌≡◌, ◌+◌, ◌*◌, ◌≤◌, ◌++◌, false, [], ◌∷◌, length, Ok, None, IfOk, OnOk, IsTrue};
ghost use Rattle.std.specs.Thread.{IsSync};
ghost use Rattle.mm_read.specs.Statements.{AreShaped, Database};
ghost use Rattle.scope.specs.Active.{bare, bares, is_closed};
ghost use Rattle.scope.specs.Legal.{first_broken};
ghost use Rattle.verify.specs.Metered.{is_past, with_work};
ghost use Rattle.library.specs.Added.{IsAdded, IsCountedOnce, IsOneAdded, IsProvedAhead, IsStop};
ghost use Rattle.library.specs.Added.{MayBeAdded, added_work, count_of};
ghost use Rattle.library.specs.Judging.{IsPrefix};
ghost use Rattle.library.specs.Work.{statement_work};

use crate::proof_jobs::{Proofs, judge_proofs};
use crate::verdict::Cause;
use frame::Frames;
use mm_read::Stmt;
use scope::{Rule, Rules, Steps};
use std::alloc::{AllocError, Global};
use std::thread::{Threads, join_mut};
use verify::Meter;
use verify_pool::{Checkers, Gate, Outcome, PoolSize, judge_all};

/// The proofs of a first part of a text are judged ahead only if that part has more statements than
/// this.
const AHEAD_THRESHOLD: usize = 8_192;

/// What a label counts in the work of a text, and a symbol that a `$c` or a `$v` lists.
const NAME_WORK: u64 = 64;

/// Tables that judge the next statement: the state of the rules, and the frames of the statements.
#[derive(Drop)]
pub(crate) struct Tables {
    pub rules: Rules,
    pub frames: Frames,
}

/// How many statements were given to the rules and frames: by the calling thread, and by threads
/// that judge proofs ahead.
#[derive(Drop)]
pub(crate) struct StepCounts {
    pub calling: Steps,
    pub ahead: Steps,
}

/// Workers, with the gate that each of them passes before each proof, and the limit on the work of
/// an entry.
#[derive(Drop)]
pub(crate) struct Parallel<'a, G: Gate + Sync, R: Threads + Sync> {
    pub rt: &'a R,
    pub alloc: Global,
    pub workers: PoolSize,
    pub gate: &'a G,
    pub limit: Option<u64>,
}

/// The outcome of adding statements.
#[derive(Drop)]
pub(crate) struct AddOutcome {
    /// Why not all are added: the first statement breaks a rule (an open block at the end breaks
    /// G10 at the number after the last statement) or is too costly. An error if an allocation
    /// failed.
    pub stopped: Result<Option<Cause>, AllocError>,
    /// The number of statements before the new ones.
    pub before: usize,
    /// A position up to which each new `$p` is known to be proved.
    pub proved_to: usize,
    /// The work of the proofs up to there.
    pub proofs_work: u64,
}

/// Adds the statements to the frames and the rules and counts them on the meter, up to the first
/// that breaks a rule or with which the count is past the limit. Before that, tries to reserve room
/// in the frames for half as many labels as there are statements.
///
/// Cost: that of the statements, each of which `steps` counts at most once.
pub(crate) fn add_all(
    statements: &[Stmt],
    tables: &mut Tables,
    steps: &mut Steps,
    meter: &mut Meter,
) -> AddOutcome
    requires { MayBeAdded statements.now tables.old meter.old }
    ensures added { IsAdded tables.old tables.new meter.old meter.new statements.now result }
    ensures rises { steps.old.count ≤ steps.new.count }
    ensures counted { steps.new.count ≤ steps.old.count + length statements.now }
{
    let before = tables.frames.len();
    tables.frames.reserve(statements.len() / 2);
    let stopped = add_each(statements, tables, steps, meter);
    AddOutcome {
        stopped,
        before,
        proved_to: before,
        proofs_work: 0,
    }
}

/// Adds the statements, and returns why not all are added, or `None`.
///
/// Errors: an allocation fails; the first statements may have been added.
fn add_each(
    statements: &[Stmt],
    tables: &mut Tables,
    steps: &mut Steps,
    meter: &mut Meter,
) -> Result<Option<Cause>, AllocError>
    requires { MayBeAdded statements.now tables.old meter.old }
    ensures stopped { IfOk result (IsStop (first_broken 1 tables.old.rules.statements statements.now)
        (length statements.now) (added_work tables.old.rules.statements statements.now) meter.old meter.new) }
    ensures rules { result ≡ Ok None → tables.new.rules.statements ≡ tables.old.rules.statements ++ bares statements.now }
    ensures frames { result ≡ Ok None → tables.new.frames.statements ≡ tables.old.frames.statements ++ bares statements.now }
    ensures closed { result ≡ Ok None → IsTrue (is_closed tables.new.rules.statements) }
    ensures begins { IsPrefix tables.old.frames.statements tables.new.frames.statements }
    ensures marked { tables.new.rules.marked ≡ tables.old.rules.marked }
    ensures rises { steps.old.count ≤ steps.new.count }
    ensures counted { steps.new.count ≤ steps.old.count + length statements.now }
{
    for (index, statement) in statements.iter().enumerate() {
        if let Some(cause) = add_one(index + 1, statement, tables, steps, meter)? {
            return Ok(Some(cause));
        }
    }
    match tables.rules.close_at_end() {
        Ok(()) => Ok(None),
        Err(rule) => Ok(Some(Cause::Rule {
            statement: statements.len() + 1,
            rule,
        })),
    }
}

/// Adds the statement of that number, and returns why it is not added, or that the count is past
/// the limit with it.
///
/// Errors: an allocation fails; the statement may have been added.
fn add_one(
    number: usize,
    statement: &Stmt,
    tables: &mut Tables,
    steps: &mut Steps,
    meter: &mut Meter,
) -> Result<Option<Cause>, AllocError>
    requires { tables.old.frames.statements ≡ tables.old.rules.statements }
    ensures added { IfOk result (IsOneAdded number tables.old tables.new statement.now meter.old meter.new) }
    ensures begins { IsPrefix tables.old.frames.statements tables.new.frames.statements }
    ensures marked { tables.new.rules.marked ≡ tables.old.rules.marked }
    ensures counted { steps.new.count ≡ steps.old.count + 1 }
{
    if let Err(rule) = tables.frames.add(&mut tables.rules, statement, steps) {
        if rule == Rule::Memory {
            return Err(AllocError);
        }
        return Ok(Some(Cause::Rule {
            statement: number,
            rule,
        }));
    }
    count_statement(&tables.frames, statement, meter)?;
    if meter.is_past() {
        return Ok(Some(Cause::TooCostly { statement: number }));
    }
    Ok(None)
}

/// Counts the statement, which the frames have last, without its proof.
///
/// Errors: the count would be 2^64 or more.
fn count_statement(frames: &Frames, statement: &Stmt, meter: &mut Meter) -> Result<(), AllocError>
    requires last { (S : Database) × (frames.now.statements ≡ S ++ bare statement.now ∷ []) }
    ensures { (S : Database) → frames.now.statements ≡ S ++ bare statement.now ∷ []
        → OnOk result (meter.new ≡ with_work meter.old (statement_work S statement.now)) }
{
    match statement {
        Stmt::Const(names) | Stmt::Var(names) => {
            let work = (names.len() as u64)
                .checked_mul(NAME_WORK)
                .ok_or(AllocError)?;
            meter.add(work)
        }
        Stmt::Float { .. } | Stmt::Ess { .. } => meter.add(NAME_WORK),
        Stmt::Axiom { .. } | Stmt::Prove { .. } => {
            meter.add(NAME_WORK)?;
            meter.add(frames.size(frames.len()))
        }
        Stmt::Open | Stmt::Close | Stmt::Disj(_) => Ok(()),
    }
}

/// Adds the statements as `add_all` does. If they are the first of a library, the workers are at
/// least two, and `count_ahead` returns n > 0, then another thread meanwhile adds the first n of
/// them to tables of its own and judges the proofs of this part. Half of the workers less one, but
/// at least one, judge them, so that a processor is left to the calling thread. In this case
/// `proved_to` is n if these proofs are found right and within the limit, else 0.
///
/// Cost: that of `add_all`, and meanwhile that of `verify_ahead`, for which `steps` counts each
/// statement of that part at most once more.
pub(crate) fn add_all_verifying<G: Gate + Sync, R: Threads + Sync>(
    parallel: &Parallel<'_, G, R>,
    statements: &[Stmt],
    tables: &mut Tables,
    steps: &mut StepCounts,
    checkers: &mut Checkers,
    meter: &mut Meter,
) -> AddOutcome
    requires { MayBeAdded statements.now tables.old meter.old }
    ensures added { IsAdded tables.old tables.new meter.old meter.new statements.now result }
    ensures rises { count_of steps.old ≤ count_of steps.new }
    ensures counted { count_of steps.new ≤ count_of steps.old + 2 * length statements.now }
{
    let count = count_ahead(statements);
    let workers = parallel.workers.count();
    if count == 0 || tables.frames.len() > 0 || workers < 2 {
        return add_all(statements, tables, &mut steps.calling, meter);
    }
    let StepCounts { calling, ahead } = steps;
    let (rt, gate, alloc) = (parallel.rt, parallel.gate, parallel.alloc);
    let limit = parallel.limit;
    let first = &statements[..count];
    let workers_ahead = (workers / 2).max(2) - 1;
    let mut verify = || -> (usize, u64)
        requires { IsSync G.row × IsSync R.row × (1 ≤ workers_ahead) × (workers_ahead ≤ 16) × AreShaped first.now }
        ensures { IsProvedAhead first.entry.now result.0 result.1
            × IsCountedOnce ahead.entry.now ahead.exit.now first.entry.now }
    {
        let workers = PoolSize::new(workers_ahead);
        let parallel = Parallel {
            rt,
            alloc,
            workers,
            gate,
            limit,
        };
        verify_ahead(&parallel, first, ahead, checkers)
    };
    let mut add = || -> AddOutcome
        requires { MayBeAdded statements.now tables.now meter.now }
        ensures { IsAdded tables.entry.now tables.exit.now meter.entry.now meter.exit.now statements.entry.now result
            × IsCountedOnce calling.entry.now calling.exit.now statements.entry.now }
    { add_all(statements, tables, calling, meter) };
    let (proved, mut added) = join_mut(rt, &mut verify, &mut add);
    added.proved_to = proved.0;
    added.proofs_work = proved.1;
    added
}

/// Returns the length of the part that is judged ahead: the shortest prefix at whose end no block
/// is open, and which has more than `AHEAD_THRESHOLD` statements and more than five for each full
/// sixteen of all statements; 0 if there is none.
fn count_ahead(statements: &[Stmt]) -> usize
    ensures { result ≤ length statements.now }
{
    // The part has more statements than this.
    let threshold = (statements.len() / 16 * 5).max(AHEAD_THRESHOLD);
    let mut open = 0usize;
    for (index, statement) in statements.iter().enumerate() {
        match statement {
            Stmt::Open => open = open.saturating_add(1),
            Stmt::Close => open = open.saturating_sub(1),
            _ => {}
        }
        if index >= threshold && open == 0 {
            return index + 1;
        }
    }
    0
}

/// Adds the statements to new tables and judges their proofs. Returns the position of the last
/// statement and the work of the proofs if each `$p` is found to be proved, else 0 and 0: if a rule
/// is broken, a proof is not right, the work of the statements or that of the proofs is past the
/// limit, or an allocation fails.
///
/// Cost: that of `add_all`, and that of the proofs, divided among the workers.
fn verify_ahead<G: Gate + Sync, R: Threads + Sync>(
    parallel: &Parallel<'_, G, R>,
    statements: &[Stmt],
    steps: &mut Steps,
    checkers: &mut Checkers,
) -> (usize, u64)
    requires shaped { AreShaped statements.now }
    ensures proved { IsProvedAhead statements.now result.0 result.1 }
    ensures rises { steps.old.count ≤ steps.new.count }
    ensures counted { steps.new.count ≤ steps.old.count + length statements.now }
{
    let (rt, gate, alloc) = (parallel.rt, parallel.gate, parallel.alloc);
    let workers = parallel.workers;
    let mut tables = Tables {
        rules: Rules::new(alloc),
        frames: Frames::new(alloc),
    };
    let mut meter = Meter::new(parallel.limit);
    let mut proofs_meter = Meter::new(parallel.limit);
    let added = add_all(statements, &mut tables, steps, &mut meter);
    let Ok(None) = added.stopped else {
        return (0, 0);
    };
    let judge = |proofs: &Proofs<'_>, checkers: &mut Checkers, meter: &mut Meter| -> Result<
        Outcome,
        AllocError,
    >
        requires { is_past meter.now ≡ false }
    { judge_all(rt, checkers, proofs, workers, gate, meter) };
    match judge_proofs(
        &judge,
        &tables.frames,
        statements,
        0,
        checkers,
        &mut proofs_meter,
    ) {
        Ok(Outcome::AllRight) => (statements.len(), proofs_meter.count()),
        _ => (0, 0),
    }
}
