//! The statements of a legal text, with their frames and the state of the rules after them.
ghost use Rattle.std.specs.Prelude.{◌≡◌, ◌≤◌, [], true, false, length, Ok, None, IfOk, IfSome};
ghost use Rattle.std.specs.List.{All};
ghost use Rattle.mm_read.specs.Statements.{AreShaped};
ghost use Rattle.scope.specs.Active.{bares};
ghost use Rattle.scope.specs.Legal.{AllLegal};
ghost use Rattle.library.specs.Good.{Good};
ghost use Rattle.library.specs.LibraryOf.{holding};
ghost use Rattle.unproved.specs.Unproved.{AreUnproved, CauseAt, IsLegalDatabase, IsPositionOf};
ghost use Rattle.unproved.specs.Unproved.{as_axiom, assumed};

use crate::search::{Search, find_unproved};
use frame::Frames;
use library::{Cause, Library};
use mm_read::Stmt;
use proof_code::is_unfinished;
use scope::{Rule, Rules, Steps};
use std::alloc::{AllocError, Global};
use std::marker::Model;
use std::mem::replace;
use std::thread::Threads;
use verify_pool::PoolSize;

/// The statements of a legal text, with their frames and the state of the rules after them.
/// Contracts see the statements.
#[derive(Drop)]
pub struct LegalDatabase {
    alloc: Global,
    statements: Vec<Stmt>,
    rules: Rules,
    frames: Frames,
}

impl Model for LegalDatabase {
    ghost use Rattle.mm_read.specs.Statements.{Database};
    ghost use Rattle.unproved.specs.Unproved.{IsLegalDatabase};

    ghost Value = { Database };

    ghost view = { λ a. a.statements.items };

    ghost invariant = { λ a. IsLegalDatabase a.rules.statements a.frames.statements a.statements.items };
}

impl LegalDatabase {
    /// Makes a `LegalDatabase` of these statements, or returns `None` exactly if they are not legal
    /// (`AllLegal`): one of them breaks a rule, or a block is open at the end.
    ///
    /// Errors: an allocation fails. Cost: the size of the statements.
    /// Source: Metamath, chapter 4.
    pub fn new(alloc: Global, statements: Vec<Stmt>) -> Result<Option<LegalDatabase>, AllocError>
        requires { AreShaped statements.items }
        ensures same { IfOk result (λ made. IfSome made (λ value. value ≡ statements.items)) }
        ensures legal { IfOk result (λ made. IfSome made (λ value. AllLegal statements.items)) }
        ensures broken { result ≡ Ok None → ¬ AllLegal statements.items }
    {
        let mut rules = Rules::new(alloc);
        let mut frames = Frames::new(alloc);
        if !add_all(&mut rules, &mut frames, statements.as_slice())? {
            return Ok(None);
        }
        Ok(Some(LegalDatabase {
            alloc,
            statements,
            rules,
            frames,
        }))
    }

    /// Returns the statements, in order.
    pub fn statements(&self) -> &[Stmt]
        ensures same { result.now ≡ self.now }
        ensures shaped { AreShaped self.now }
    {
        self.statements.as_slice()
    }

    /// Returns the frames of the statements.
    pub fn frames(&self) -> &Frames
        ensures { result.now.statements ≡ bares self.now }
    {
        &self.frames
    }

    /// Returns the positions, from 1 and ascending, of every `$p` that is not proved, each judged
    /// against earlier statements. The list does not depend on the number of workers; whether
    /// `AllocError` is returned may. `rt` starts the threads.
    ///
    /// Errors: an allocation fails. Cost: that of the proofs, divided among the workers. In each
    /// range of at most 2,048 statements the calling thread may judge proofs again: those after the
    /// first wrong one, those that a worker puts off for lack of memory, or all of them if
    /// `verify_pool::judge_all` judges all jobs again.
    /// Source: Metamath, 4.2.6 and appendix B.
    pub fn unproved<R: Threads + Sync>(
        &self,
        rt: &R,
        workers: PoolSize,
    ) -> Result<Vec<usize>, AllocError>
        ensures positions { IfOk result (λ positions. AreUnproved self.now 0 (length self.now) positions.items) }
        ensures within { IfOk result (λ positions. All (IsPositionOf (length self.now)) positions.items) }
    {
        let search = Search {
            rt,
            alloc: self.alloc,
            frames: &self.frames,
            statements: self.statements.as_slice(),
            workers,
        };
        find_unproved(&search)
    }

    /// Makes a library of the statements, with each unproved `$p` replaced by a `$a` that has the
    /// same label and expression. `unproved` is the list that `LegalDatabase::unproved` returns. No
    /// proof is judged again.
    ///
    /// Errors: an allocation fails. Cost: the size of the statements.
    #[tactic(auto, using(crate::proofs::AssumedGoodLemmas::good_assumed, crate::proofs::UnprovedLemmas::all_within))]
    pub fn into_assumed_library(self, unproved: &[usize]) -> Result<Library, AllocError>
        requires { AreUnproved self 0 (length self) unproved.now }
        ensures { IfOk result (λ library. library.replica ≡ holding (assumed self unproved.now)) }
    {
        let alloc = self.alloc;
        let statements = self.into_assumed_statements(unproved);
        library_of_good(alloc, statements)
    }

    /// Makes a library of the statements, which are good.
    fn into_library(self) -> Library
        requires { Good self }
        ensures { result.replica ≡ holding self }
    {
        let LegalDatabase {
            alloc,
            statements,
            rules,
            frames,
        } = self;
        Library::from_good(alloc, statements, rules, frames)
    }

    /// Returns the statements, with each `$p` at one of these positions replaced by a `$a`.
    fn into_assumed_statements(self, unproved: &[usize]) -> Vec<Stmt>
        requires { All (IsPositionOf (length self)) unproved.now }
        ensures replaced { result.items ≡ assumed self unproved.now }
        ensures shaped { AreShaped result.items }
    {
        let LegalDatabase { mut statements, .. } = self;
        make_axioms(&mut statements, unproved);
        statements
    }

    /// Returns the cause for the `$p` at this position: `Unfinished` if a token of the proof there
    /// has the byte `?`, else `Proof`. It is meant for a `$p` that is not proved.
    pub fn cause(&self, at: usize) -> Cause
        requires { IsPositionOf (length self.now) at }
        ensures { CauseAt self.now at result }
    {
        let Stmt::Prove { proof, .. } = &self.statements[at - 1] else {
            return Cause::Proof { statement: at };
        };
        if is_unfinished(proof) {
            Cause::Unfinished { statement: at }
        } else {
            Cause::Proof { statement: at }
        }
    }
}

/// Makes a library of good statements.
///
/// Errors: an allocation fails. Cost: the size of the statements.
fn library_of_good(alloc: Global, statements: Vec<Stmt>) -> Result<Library, AllocError>
    requires shaped { AreShaped statements.items }
    requires good { Good statements.items }
    ensures { IfOk result (λ library. library.replica ≡ holding statements.items) }
{
    match LegalDatabase::new(alloc, statements)? {
        Some(database) => Ok(database.into_library()),
        None => unreachable!(),
    }
}

/// Replaces each `$p` at one of these positions by a `$a`.
fn make_axioms(statements: &mut Vec<Stmt>, unproved: &[usize])
    requires within { All (IsPositionOf (length statements.old.items)) unproved.now }
    requires shaped { AreShaped statements.old.items }
    ensures replaced { statements.new.items ≡ assumed statements.old.items unproved.now }
    ensures shaped { AreShaped statements.new.items }
{
    for at in unproved {
        make_axiom(&mut statements[*at - 1]);
    }
}

/// Replaces a `$p` by a `$a` with the same label and expression.
fn make_axiom(statement: &mut Stmt)
    ensures { statement.new ≡ as_axiom statement.old }
{
    let old = replace(statement, Stmt::Open);
    *statement = match old {
        Stmt::Prove {
            label,
            expr,
            proof: _proof,
        } => Stmt::Axiom { label, expr },
        other => other,
    };
}

/// Adds the statements to empty rules and frames, up to the first that is not legal. Returns
/// whether all are legal and no block is open at the end.
///
/// Errors: an allocation fails. Cost: the size of the statements.
fn add_all(rules: &mut Rules, frames: &mut Frames, statements: &[Stmt]) -> Result<bool, AllocError>
    requires shaped { AreShaped statements.now }
    requires no_rules { rules.old.statements ≡ [] }
    requires no_frames { frames.old.statements ≡ [] }
    ensures legal { result ≡ Ok true
        → IsLegalDatabase rules.new.statements frames.new.statements statements.now }
    ensures broken { result ≡ Ok false → ¬ AllLegal statements.now }
{
    // Room for half as many labels as there are statements.
    frames.reserve(statements.len() / 2);
    let mut steps = Steps::new();
    for statement in statements {
        if let Err(rule) = frames.add(rules, statement, &mut steps) {
            if rule == Rule::Memory {
                return Err(AllocError);
            }
            return Ok(false);
        }
    }
    match rules.close_at_end() {
        Ok(()) => Ok(true),
        Err(_open) => Ok(false),
    }
}
