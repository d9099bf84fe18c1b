//! Good statements (each obeys the rules, all blocks close, and each `$p` is proved), with the
//! tables that judge later ones.
ghost use Rattle.std.specs.Prelude.{◌≡◌, ℕ, ◌+◌, ◌-◌, ◌*◌, ◌≤◌, ◌++◌, false, List, [], length};
ghost use Rattle.std.specs.Prelude.{take, drop, Ok, Some, None, IfOk, OnOk, OnErr};
ghost use Rattle.frame.specs.AtPosition.{HasLabelsOnce};
ghost use Rattle.library.specs.Added.{Adds, AreKnown, HasBegun, IsAddedAfter, IsFoundBy};
ghost use Rattle.library.specs.Added.{count_of, proof_cause};
ghost use Rattle.library.specs.Causes.{first_leaving};
ghost use Rattle.library.specs.Good.{Good};
ghost use Rattle.library.specs.Judging.{IsChecked, IsJudged, judged_statements, or_leaving};
ghost use Rattle.library.specs.ProofJobs.{JudgesProofs};
ghost use Rattle.library.specs.Work.{text_work};
ghost use Rattle.mm_read.specs.Statements.{AreShaped};
ghost use Rattle.scope.specs.Active.{bares, stmt_at};
ghost use Rattle.verify.specs.Metered.{is_past};

use crate::adding::{AddOutcome, StepCounts, Tables};
use crate::entry_text::NewText;
use crate::proof_jobs::{Proofs, judge_proofs};
use crate::verdict::Cause;
use entries::give_back;
use frame::Frames;
use mm_read::Stmt;
use proof_code::is_unfinished;
use scope::Rules;
use std::alloc::{AllocError, Global};
use std::marker::Model;
use verify::Meter;
use verify_pool::{Checkers, Outcome};

/// Good statements as they were read, with the tables that take the next one and the proof
/// checkers, which are reused from text to text. Contracts see the list of statements.
#[derive(Drop)]
pub(crate) struct CheckedDatabase {
    statements: Vec<Stmt>,
    tables: Tables,
    checkers: Checkers,
}

impl Model for CheckedDatabase {
    ghost use Rattle.library.specs.Judging.{IsChecked};
    ghost use Rattle.mm_read.specs.Statements.{Database};

    ghost Value = { Database };

    ghost view = { λ a. a.statements.items };

    ghost invariant = { λ a. IsChecked a.statements.items a.tables };
}

impl CheckedDatabase {
    /// Returns a database without statements. Does not allocate.
    pub(crate) fn new(alloc: Global) -> CheckedDatabase
        ensures { result ≡ [] }
    {
        CheckedDatabase {
            statements: Vec::new(alloc),
            tables: Tables {
                rules: Rules::new(alloc),
                frames: Frames::new(alloc),
            },
            checkers: Checkers::new(alloc),
        }
    }

    /// Returns a database of good statements, given with their rules and frames. Does not allocate.
    #[tactic(auto, using(crate::proofs::JoinedRulesLemmas::good_closed))]
    pub(crate) fn from_good(
        alloc: Global,
        statements: Vec<Stmt>,
        mut rules: Rules,
        frames: Frames,
    ) -> CheckedDatabase
        requires good { Good statements.items }
        requires shaped { AreShaped statements.items }
        requires rules { rules.statements ≡ bares statements.items }
        requires frames { frames.statements ≡ bares statements.items }
        ensures { result ≡ statements.items }
    {
        // `extend` rolls back to the marked state.
        rules.mark();
        CheckedDatabase {
            statements,
            tables: Tables { rules, frames },
            checkers: Checkers::new(alloc),
        }
    }

    /// Returns the statements.
    pub(crate) fn statements(&self) -> &[Stmt]
        ensures statements { result.now ≡ self.now }
        ensures good { Good self.now }
        ensures shaped { AreShaped self.now }
    {
        self.statements.as_slice()
    }

    /// Returns the statement at a position.
    #[tactic(auto, using(crate::proofs::FrontLemmas::stands_index))]
    pub(crate) fn statement(&self, at: usize) -> &Stmt
        requires { (1 ≤ at) × (at ≤ length self.now) }
        ensures stands { stmt_at self.now at ≡ Some result.now }
        ensures good { Good self.now }
    {
        &self.statements[at - 1]
    }

    /// Returns the frames of the statements, no two of which have the same label.
    pub(crate) fn frames(&self) -> &Frames
        ensures same { result.now.statements ≡ bares self.now }
        ensures once { HasLabelsOnce result.now.statements }
        ensures good { Good self.now }
    {
        &self.tables.frames
    }

    /// Returns the allocator of the statements and tables.
    pub(crate) fn alloc(&self) -> Global {
        self.checkers.alloc()
    }

    /// Judges the text, and appends its statements if the whole list is then good and `is_kept`;
    /// otherwise appends none. Returns the cause for which it is refused, or `None`, and the work
    /// that was counted, which is that of the text if it is not refused. `add` adds statements to
    /// the tables, and `judge_all` judges proofs in order.
    ///
    /// Errors: an allocation fails; nothing is added then. Cost: that of the statements, each of
    /// which `steps` counts at most twice, and that of their proofs. Rolling back cannot fail. Most
    /// of the memory that only refused statements needed is given back, if smaller blocks can be
    /// allocated.
    pub(crate) fn extend<
        E: Fn(&[Stmt], &mut Tables, &mut StepCounts, &mut Checkers, &mut Meter) -> AddOutcome,
        F: Fn(&Proofs<'_>, &mut Checkers, &mut Meter) -> Result<Outcome, AllocError>,
    >(
        &mut self,
        text: NewText,
        is_kept: bool,
        steps: &mut StepCounts,
        add: &E,
        judge_all: &F,
    ) -> Result<(Option<Cause>, u64), AllocError>
        requires shaped { AreShaped text.statements.items }
        requires within { is_past text.meter ≡ false }
        requires leaves { text.leaves ≡ first_leaving text.meter.limit text.statements.items }
        requires adds { Adds (E.pre add.now) (E.post add.now) }
        requires judges { JudgesProofs (F.pre judge_all.now) (F.post judge_all.now) }
        ensures judged { (bytes : List ℕ) → text.meter.count ≡ length bytes
            → IfOk result (λ judged. IsJudged text.meter.limit self.old bytes text.statements.items judged.0) }
        ensures work { (bytes : List ℕ) → text.meter.count ≡ length bytes
            → IfOk result (λ judged. judged.0 ≡ None → judged.1 ≡ text_work self.old bytes text.statements.items) }
        ensures new { IfOk result (λ judged. self.new ≡ judged_statements is_kept self.old text.statements.items judged.0) }
        ensures same { OnErr result (self.new ≡ self.old) }
        ensures rises { count_of steps.old ≤ count_of steps.new }
        ensures counted { count_of steps.new ≤ count_of steps.old + 2 * length text.statements.items }
    {
        let NewText {
            statements: more,
            leaves,
            mut meter,
        } = text;
        let start = self.statements.len();
        append_all(&mut self.statements, more)?;
        let statements = self.statements.as_slice();
        let tables = &mut self.tables;
        let checkers = &mut self.checkers;
        let mut added = add_after(statements, tables, steps, checkers, &mut meter, add);
        added.stopped = or_leaving(added.stopped, leaves);
        let found = judge(
            added,
            &tables.frames,
            statements,
            checkers,
            &mut meter,
            judge_all,
        );
        checkers.shrink();
        if is_kept {
            if let Ok(None) = found {
                tables.rules.mark();
                return Ok((None, meter.count()));
            }
        }
        tables.rules.back();
        tables.frames.shorten(start);
        self.statements.truncate(start);
        tables.rules.shrink();
        tables.frames.shrink();
        give_back(&mut self.statements);
        Ok((found?, meter.count()))
    }
}

/// Appends more statements; if there are none yet, takes over the list itself.
///
/// Errors: an allocation fails; nothing is added then. Cost: that of the statements added.
fn append_all(statements: &mut Vec<Stmt>, mut more: Vec<Stmt>) -> Result<(), AllocError>
    ensures added { OnOk result (statements.new.items ≡ statements.old.items ++ more.items) }
    ensures same { OnErr result (statements.new.items ≡ statements.old.items) }
{
    if statements.is_empty() {
        *statements = more;
    } else {
        statements.append(&mut more)?;
    }
    Ok(())
}

/// Adds the statements to the tables that follow those which the tables have.
///
/// Cost: that of `add`.
fn add_after<E: Fn(&[Stmt], &mut Tables, &mut StepCounts, &mut Checkers, &mut Meter) -> AddOutcome>(
    statements: &[Stmt],
    tables: &mut Tables,
    steps: &mut StepCounts,
    checkers: &mut Checkers,
    meter: &mut Meter,
    add: &E,
) -> AddOutcome
    requires adds { Adds (E.pre add.now) (E.post add.now) }
    requires begins { length tables.old.frames.statements ≤ length statements.now }
    requires checked { IsChecked (take (length tables.old.frames.statements) statements.now) tables.old }
    requires shaped { AreShaped (drop (length tables.old.frames.statements) statements.now) }
    requires within { is_past meter.old ≡ false }
    ensures added { IsAddedAfter statements.now (length tables.old.frames.statements) tables.new meter.old meter.new result }
    ensures rises { count_of steps.old ≤ count_of steps.new }
    ensures counted { count_of steps.new ≤ count_of steps.old
        + 2 * (length statements.now - length tables.old.frames.statements) }
{
    let start = tables.frames.len();
    add(&statements[start..], tables, steps, checkers, meter)
}

/// Returns why a text is refused before its proofs, given why its statements were not added and the
/// number of the first hypothesis that they leave active.
fn or_leaving(
    stopped: Result<Option<Cause>, AllocError>,
    leaves: Option<usize>,
) -> Result<Option<Cause>, AllocError>
    ensures { result ≡ or_leaving stopped leaves }
{
    match stopped {
        Ok(None) => Ok(leaves.map(|statement| Cause::LeavesHypotheses { statement })),
        _ => stopped,
    }
}

/// Returns why statements are refused, given the outcome of adding them; `None` if they are good.
/// Counts their proofs on the meter.
///
/// Errors: an allocation fails. Cost: that of the proofs, and one pass over these statements.
fn judge<F: Fn(&Proofs<'_>, &mut Checkers, &mut Meter) -> Result<Outcome, AllocError>>(
    added: AddOutcome,
    frames: &Frames,
    statements: &[Stmt],
    checkers: &mut Checkers,
    meter: &mut Meter,
    judge_all: &F,
) -> Result<Option<Cause>, AllocError>
    requires judges { JudgesProofs (F.pre judge_all.now) (F.post judge_all.now) }
    requires frames { added.stopped ≡ Ok None → frames.now.statements ≡ bares statements.now }
    requires within { added.stopped ≡ Ok None → is_past meter.old ≡ false }
    requires known { AreKnown statements.now added.before added }
    ensures { IfOk result (IsFoundBy statements.now added meter.old meter.new) }
{
    if let Some(cause) = added.stopped? {
        return Ok(Some(cause));
    }
    let start = begin_proofs(&added, meter);
    match judge_proofs(judge_all, frames, statements, start, checkers, meter)? {
        Outcome::AllRight => Ok(None),
        Outcome::TooCostly(at) => Ok(Some(Cause::TooCostly {
            statement: at - added.before,
        })),
        Outcome::Wrong(at) => Ok(Some(proof_cause(at - added.before, &statements[at - 1]))),
    }
}

/// Returns the number of statements whose proofs need not be judged: the proofs that are known to
/// be right are counted on the meter, unless it is then past its limit.
fn begin_proofs(added: &AddOutcome, meter: &mut Meter) -> usize
    ensures { HasBegun added.now meter.old meter.new result }
{
    let mut counted = *meter;
    if counted.add(added.proofs_work).is_err() || counted.is_past() {
        return added.before;
    }
    *meter = counted;
    added.proved_to
}

/// Returns the cause for a `$p` of this number that is not proved.
fn proof_cause(number: usize, statement: &Stmt) -> Cause
    ensures { result ≡ proof_cause number statement.now }
{
    match statement {
        Stmt::Prove { proof, .. } if is_unfinished(proof) => Cause::Unfinished {
            statement: number,
        },
        _ => Cause::Proof { statement: number },
    }
}
