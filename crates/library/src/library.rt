//! One replica: the statements that the entries of a log validly add, and the verdicts on them.
ghost use Rattle.std.specs.Prelude.{◌≡◌, ◌≤◌, false, None, Some, IfOk, IfSome, OnErr, option_map};
ghost use Rattle.library.specs.Added.{Adds, MayBeAdded};
ghost use Rattle.library.specs.Good.{Good};
ghost use Rattle.library.specs.Judging.{ReadsTexts};
ghost use Rattle.library.specs.LibraryOf.{Applies, empty, holding, status};
ghost use Rattle.library.specs.LibraryState.{IsDecision, IsWorkOf, HasFewSteps};
ghost use Rattle.library.specs.LibraryState.{HasFewStepsForText, verdict_of, work_or_cause};
ghost use Rattle.library.specs.ProofJobs.{JudgesProofs};
ghost use Rattle.mm_read.specs.Statements.{AreShaped};
ghost use Rattle.scope.specs.Active.{bares};
ghost use Rattle.std.specs.Fn.{FnReturnsAt};
ghost use Rattle.verify.specs.Metered.{is_past};

use crate::adding::{AddOutcome, Parallel, StepCounts, Tables, add_all, add_all_verifying};
use crate::charter::Names;
use crate::checked_database::CheckedDatabase;
use crate::decided::{DecidedEntries, DecidedEntry, EntryState};
use crate::entry::Entry;
use crate::entry_text::{may_declare, read_text};
use crate::proof_jobs::Proofs;
use crate::submission::Submission;
use crate::verdict::{Cause, Verdict};
use frame::Frames;
use mm_read::{ReadFault, Stmt, read};
use read_pool::read_in_parts;
use scope::{Rules, Steps};
use std::alloc::{AllocError, Global};
use std::collections::BTreeMap;
use std::marker::Model;
use std::thread::Threads;
use verify::Meter;
use verify_pool::{Checkers, Gate, Outcome, PoolSize, judge_all, judge_here};

/// The statements added, the state of each entry by its author and serial number, and the charter
/// in force. Contracts see a replica (`ReplicaState` of `specs/LibraryOf`, with the verdicts in the
/// order of the log), and a count of steps: of the statements that were given to the rules and
/// frames.
///
/// Authors choose the numbers, so the table is an ordered map: no choice makes a look-up cost more
/// than the logarithm of the count of entries.
#[derive(Drop)]
pub struct Library {
    database: CheckedDatabase,
    entry_states: BTreeMap<(u64, u64), EntryState>,
    decided: DecidedEntries,
    charter: Option<Names>,
    limit: Option<u64>,
    steps: StepCounts,
}

impl Model for Library {
    ghost use Rattle.library.specs.Added.{count_of};
    ghost use Rattle.library.specs.LibraryState.{LibraryModel, IsTableOf};

    ghost Value = { LibraryModel };

    ghost view = { λ a. record { replica = record { statements = a.database; decided = a.decided.entries; charter = a.charter; limit = a.limit }; steps = count_of a.steps } };

    ghost invariant = { λ a. IsTableOf a.decided.entries a.entry_states };
}

impl Library {
    /// Returns a library without statements, verdicts and charter. Does not allocate.
    ///
    /// `limit` is the greatest work that an entry may count, or `None` if there is no limit.
    pub fn new(alloc: Global, limit: Option<u64>) -> Library
        ensures replica { result.replica ≡ empty limit }
        ensures steps { result.steps ≡ 0 }
    {
        Library {
            database: CheckedDatabase::new(alloc),
            entry_states: BTreeMap::new(alloc),
            decided: DecidedEntries::none(),
            charter: None,
            limit,
            steps: StepCounts {
                calling: Steps::new(),
                ahead: Steps::new(),
            },
        }
    }

    /// Returns a library of good statements, given with their rules and frames, without verdicts,
    /// charter and limit. Does not allocate. Judges nothing: the caller knows that the statements are
    /// good (`Good`).
    ///
    /// Cost: a constant.
    pub fn from_good(alloc: Global, statements: Vec<Stmt>, rules: Rules, frames: Frames) -> Library
        requires good { Good statements.items }
        requires shaped { AreShaped statements.items }
        requires rules { rules.statements ≡ bares statements.items }
        requires frames { frames.statements ≡ bares statements.items }
        ensures replica { result.replica ≡ holding statements.items }
        ensures steps { result.steps ≡ 0 }
    {
        Library {
            database: CheckedDatabase::from_good(alloc, statements, rules, frames),
            entry_states: BTreeMap::new(alloc),
            decided: DecidedEntries::none(),
            charter: None,
            limit: None,
            steps: StepCounts {
                calling: Steps::new(),
                ahead: Steps::new(),
            },
        }
    }

    /// Applies the next entry of the log; `None` is a no-operation. Raises the count of steps,
    /// which only contracts see, by at most three for each statement of the text.
    ///
    /// Errors: an allocation fails; the entry stays undecided, and statements, verdicts and charter
    /// are as before.
    /// Cost: that of reading the entry's text and of judging its statements and proofs, whatever
    /// was added before and whoever submitted it, with the exceptions of `docs/COSTS.md`; and the
    /// logarithm of the count of entries.
    pub fn apply(&mut self, next: Option<&Entry>) -> Result<Verdict, AllocError>
        ensures applies { IfOk result
            (λ verdict. Applies self.old.replica (option_map (λ e. e.now) next.entry) verdict self.new.replica) }
        ensures same { OnErr result (self.new.replica ≡ self.old.replica) }
        ensures rises { self.old.steps ≤ self.new.steps }
        ensures counted { HasFewSteps self.old.replica
            (option_map (λ e. e.now) next.entry) self.old.steps self.new.steps }
    {
        let alloc = self.database.alloc();
        let add = |statements: &[Stmt], tables: &mut Tables, steps: &mut StepCounts, _checkers: &mut Checkers, meter: &mut Meter| -> AddOutcome
            requires { MayBeAdded statements.now tables.now meter.now }
        { add_all(statements, tables, &mut steps.calling, meter) };
        let judge = |proofs: &Proofs<'_>, checkers: &mut Checkers, meter: &mut Meter| -> Result<
            Outcome,
            AllocError,
        >
            requires { is_past meter.now ≡ false }
        { judge_here(checkers, proofs, meter) };
        self.apply_by(next, &|text: &[u8]| read(alloc, text), &add, &judge)
    }

    /// Applies the next entry as `apply` does, its text read and its proofs judged in parallel, by
    /// `workers` at most.
    ///
    /// Each worker passes the gate before each proof that is dealt to it (at `Place::Job` of
    /// `verify_pool`). The jobs are the `$p` of the text, in order, counted from 0. If the proofs
    /// of a first part of a long text are judged ahead, the jobs are first the `$p` of that part;
    /// then those of the rest, again counted from 0, or all `$p` of the text if the first part was
    /// not found to be proved. Proofs for which a worker lacks memory are judged again
    /// (`judge_all`). The verdict does not depend on the number of workers; whether an allocation
    /// fails may.
    ///
    /// Errors: those of `apply`; `AllocError` may also be returned if a proof is heavy, that is, if
    /// its results have more symbols than a worker holds (`MAX_WORKER_SYMBOLS`), and the gate keeps
    /// such proofs out (`Gate::admits_heavy`).
    /// Cost: that of `apply`; reading a large text and judging its proofs are divided among the
    /// workers. Statements that are added again, and proofs that are judged again, cost twice.
    pub fn apply_with<G: Gate + Sync, R: Threads + Sync>(
        &mut self,
        rt: &R,
        next: Option<&Entry>,
        workers: PoolSize,
        gate: &G,
    ) -> Result<Verdict, AllocError>
        ensures applies { IfOk result
            (λ verdict. Applies self.old.replica (option_map (λ e. e.now) next.entry) verdict self.new.replica) }
        ensures same { OnErr result (self.new.replica ≡ self.old.replica) }
        ensures rises { self.old.steps ≤ self.new.steps }
        ensures counted { HasFewSteps self.old.replica
            (option_map (λ e. e.now) next.entry) self.old.steps self.new.steps }
    {
        let alloc = self.database.alloc();
        let parallel = Parallel {
            rt,
            alloc,
            workers,
            gate,
            limit: self.limit,
        };
        let count = workers.count();
        let add = |statements: &[Stmt], tables: &mut Tables, steps: &mut StepCounts, checkers: &mut Checkers, meter: &mut Meter| -> AddOutcome
            requires { MayBeAdded statements.now tables.now meter.now }
        { add_all_verifying(&parallel, statements, tables, steps, checkers, meter) };
        let judge = |proofs: &Proofs<'_>, checkers: &mut Checkers, meter: &mut Meter| -> Result<
            Outcome,
            AllocError,
        >
            requires { is_past meter.now ≡ false }
        { judge_all(rt, checkers, proofs, workers, gate, meter) };
        self.apply_by(
            next,
            &|text: &[u8]| read_in_parts(rt, alloc, text, count),
            &add,
            &judge,
        )
    }

    /// Returns the work of the submission if it would be added next, whoever submitted it before
    /// and under which number; otherwise the cause for which it would be refused. Adds nothing.
    /// Judges the text as `apply` does, and raises the count of steps as much.
    ///
    /// Errors: an allocation fails. Cost: that of `apply`.
    pub fn work(&mut self, submission: &Submission) -> Result<Result<u64, Cause>, AllocError>
        ensures work { IfOk result (IsWorkOf self.old.replica submission.now) }
        ensures same { self.new.replica ≡ self.old.replica }
        ensures rises { self.old.steps ≤ self.new.steps }
        ensures counted { HasFewStepsForText submission.now self.old.steps self.new.steps }
    {
        let alloc = self.database.alloc();
        let add = |statements: &[Stmt], tables: &mut Tables, steps: &mut StepCounts, _checkers: &mut Checkers, meter: &mut Meter| -> AddOutcome
            requires { MayBeAdded statements.now tables.now meter.now }
        { add_all(statements, tables, &mut steps.calling, meter) };
        let judge = |proofs: &Proofs<'_>, checkers: &mut Checkers, meter: &mut Meter| -> Result<
            Outcome,
            AllocError,
        >
            requires { is_past meter.now ≡ false }
        { judge_here(checkers, proofs, meter) };
        let read = |text: &[u8]| read(alloc, text);
        let text = match read_text(self.limit, &self.charter, submission, &read)? {
            Ok(text) => text,
            Err(cause) => return Ok(Err(cause)),
        };
        let database = &mut self.database;
        let judged = database.extend(text, false, &mut self.steps, &add, &judge)?;
        Ok(work_or_cause(judged.0, judged.1))
    }

    /// Applies the next entry, where `read` returns the statements of a text, `add` adds statements
    /// to the tables, and `judge` judges proofs in order. The statements of a text are added if the
    /// whole list is good with them and the work is within the limit; a charter that is added is in
    /// force from now on.
    fn apply_by<
        T: Fn(&[u8]) -> Result<Vec<Stmt>, ReadFault>,
        E: Fn(&[Stmt], &mut Tables, &mut StepCounts, &mut Checkers, &mut Meter) -> AddOutcome,
        F: Fn(&Proofs<'_>, &mut Checkers, &mut Meter) -> Result<Outcome, AllocError>,
    >(&mut self, next: Option<&Entry>, read: &T, add: &E, judge: &F) -> Result<Verdict, AllocError>
        requires reads { T.IsAlwaysCallable read.now × ReadsTexts (FnReturnsAt T.Fn read.now) }
        requires adds { Adds (E.pre add.now) (E.post add.now) }
        requires judges { JudgesProofs (F.pre judge.now) (F.post judge.now) }
        ensures applies { IfOk result
            (λ verdict. Applies self.old.replica (option_map (λ e. e.now) next.entry) verdict self.new.replica) }
        ensures same { OnErr result (self.new.replica ≡ self.old.replica) }
        ensures rises { self.old.steps ≤ self.new.steps }
        ensures counted { HasFewSteps self.old.replica
            (option_map (λ e. e.now) next.entry) self.old.steps self.new.steps }
    {
        let Some(entry) = next else {
            return Ok(Verdict::Nothing);
        };
        match self.status(entry.author(), entry.serial()) {
            Some(_) => return Ok(Verdict::Repeat),
            None => {}
        }
        let key = (entry.author(), entry.serial());
        // Makes room for the entry, so that its decision is recorded without an allocation.
        self.entry_states.insert(key, EntryState::Undecided)?;
        let cause = match entry {
            Entry::Text(submission) => {
                match read_text(self.limit, &self.charter, submission, read)? {
                    Ok(text) => {
                        let database = &mut self.database;
                        database.extend(text, true, &mut self.steps, add, judge)?.0
                    }
                    Err(cause) => Some(cause),
                }
            }
            Entry::Charter { author, names, .. } => {
                if !may_declare(&self.charter, *author) {
                    Some(Cause::NotChartered { statement: 0 })
                } else {
                    self.charter = Some(names.copy()?);
                    None
                }
            }
        };
        let Ok(_) = self.entry_states.insert(key, EntryState::Decided(cause)) else {
            unreachable!();
        };
        let last = DecidedEntry {
            author: key.0,
            serial: key.1,
            cause,
        };
        self.decided = DecidedEntries::after(&self.decided, &last);
        Ok(verdict_of(cause))
    }

    /// Returns the verdict first decided on the author's entry of that serial number: Added or
    /// Refused; `None` if none was decided. Does not allocate.
    ///
    /// Cost: the logarithm of the count of entries.
    pub fn status(&self, author: u64, serial: u64) -> Option<Verdict>
        ensures first { result ≡ status self.now.replica.decided author serial }
        ensures decided { IfSome result IsDecision }
    {
        match self.entry_states.get(&(author, serial)) {
            Some(EntryState::Decided(cause)) => Some(verdict_of(*cause)),
            Some(EntryState::Undecided) => None,
            None => None,
        }
    }

    /// Returns all statements, in order.
    pub fn statements(&self) -> &[Stmt]
        ensures statements { result.now ≡ self.now.replica.statements }
        ensures good { Good self.now.replica.statements }
        ensures shaped { AreShaped self.now.replica.statements }
    {
        self.database.statements()
    }

    /// Returns the statements with the tables that judge the next ones.
    pub(crate) fn database(&self) -> &CheckedDatabase
        ensures { result.now ≡ self.now.replica.statements }
    {
        &self.database
    }

    /// Returns the greatest work that an entry may count, or `None` if there is no limit.
    pub fn limit(&self) -> Option<u64>
        ensures { result ≡ self.now.replica.limit }
    {
        self.limit
    }

    /// Returns the charter in force, if there is one.
    pub fn charter(&self) -> Option<&Names>
        ensures { option_map (λ names. names.now) result ≡ self.now.replica.charter }
    {
        self.charter.as_ref()
    }
}

/// Returns the work that was counted, or the cause of refusal if there is one.
fn work_or_cause(cause: Option<Cause>, work: u64) -> Result<u64, Cause>
    ensures { result ≡ work_or_cause cause work }
{
    match cause {
        None => Ok(work),
        Some(cause) => Err(cause),
    }
}

/// Returns the decision: added, or refused for this cause.
fn verdict_of(cause: Option<Cause>) -> Verdict
    ensures is { result ≡ verdict_of cause }
    ensures decided { IsDecision result }
{
    match cause {
        None => Verdict::Added,
        Some(cause) => Verdict::Refused(cause),
    }
}
