//! The table of a proof.
ghost use Rattle.std.specs.Prelude.{◌≡◌, ◌-◌, ◌<◌, ◌∷◌, ◌++◌, [], IfOk, OnOk, length, map, get_or, Some};
ghost use Rattle.steps.specs.Stored.Drafted.{AreInBuffer, row_of};
ghost use Rattle.mm_read.specs.declared.stmt.Stmt.{Stmt as Statement};
ghost use Rattle.scope.specs.Active.{stmt_at, expr_of};
ghost use Rattle.verify.specs.Right.{IsRight, Derives};
ghost use Rattle.steps.specs.StepTable.{AreSteps};
ghost use Rattle.steps.specs.Rows.{no_row, row, steps_of, expr_in, AreRows};
ghost use Rattle.steps.specs.Unfolded.{last_unfolded};

use crate::table_draft::{StoredStep, TableDraft};
use frame::Frames;
use proof_code::Items;
use std::alloc::{AllocError, Global};
use std::marker::Model;
use subst::{Buffer, SYMBOLS_LIMIT, range_between, symbols_at};
use verify::{Outcome, run};

/// The steps of a proof without duplicates, each after the steps that it takes. Contracts see the
/// list of rows.
#[derive(Drop)]
pub struct ProofTable {
    /// The steps, each with the range of its expression.
    stored: Vec<StoredStep>,
    /// The symbols of all expressions, and of the other results of the run.
    symbols: Buffer,
}

impl Model for ProofTable {
    ghost use Rattle.std.specs.Prelude.{List, length, map};
    ghost use Rattle.steps.specs.Rows.{Row};
    ghost use Rattle.steps.specs.Stored.Drafted.{row_of, AreInBuffer};

    ghost Value = { List Row };

    ghost view = { λ a. map (row_of a.symbols) a.stored.items };

    ghost invariant = { λ a. AreInBuffer (length a.symbols) a.stored.items };
}

impl ProofTable {
    /// Returns a table without steps.
    pub(crate) fn new(alloc: Global) -> ProofTable
        ensures { result ≡ [] }
    {
        ProofTable {
            stored: Vec::new(alloc),
            symbols: Buffer::new(alloc),
        }
    }

    /// Returns the table of these steps, whose expressions are ranges of the symbols.
    pub(crate) fn of_draft(stored: Vec<StoredStep>, symbols: Buffer) -> ProofTable
        requires { AreInBuffer (length symbols) stored.items }
        ensures { result ≡ map (row_of symbols) stored.items }
    {
        ProofTable { stored, symbols }
    }

    /// Appends a step with its expression.
    ///
    /// Errors: an allocation fails, or the expressions exceed `SYMBOLS_LIMIT` symbols.
    pub(crate) fn push(
        &mut self,
        position: usize,
        taken: Vec<usize>,
        expr: &[u32],
    ) -> Result<(), AllocError>
        ensures { OnOk result (self.new ≡ self.old ++ row position taken.items expr.now ∷ []) }
    {
        let start = self.symbols.len();
        if expr.len() > SYMBOLS_LIMIT - start {
            return Err(AllocError);
        }
        self.symbols.extend(expr)?;
        let range = range_between(start, self.symbols.len());
        self.stored.push(StoredStep {
            position,
            taken,
            range,
        })?;
        Ok(())
    }

    /// Returns the number of steps.
    pub fn len(&self) -> usize
        ensures { result ≡ length self.now }
    {
        self.stored.len()
    }

    /// Returns the position of the statement that the step at a place cites. A place is the index
    /// of a step in the table, from 0.
    pub fn position(&self, place: usize) -> usize
        requires { place < length self.now }
        ensures { result ≡ (get_or self.now place no_row).step.position }
    {
        self.stored[place].position
    }

    /// Returns the places of the steps whose results the step at a place takes, in the order of the
    /// hypotheses.
    pub fn taken(&self, place: usize) -> &[usize]
        requires { place < length self.now }
        ensures { result.now ≡ (get_or self.now place no_row).step.taken }
    {
        self.stored[place].taken.as_slice()
    }

    /// Returns the numbers of the symbols of the expression of the step at a place.
    pub fn expr(&self, place: usize) -> &[u32]
        requires { place < length self.now }
        ensures { result.now ≡ (get_or self.now place no_row).expr }
    {
        symbols_at(self.symbols.as_slice(), self.stored[place].range)
    }
}

/// Returns the steps of the items of a right proof of the `$p` at position `at`, each with its
/// expression.
///
/// Errors: an allocation fails. Cost: that of `verify::check`, and of finding each citation among the
/// steps. There is no limit on the number of steps.
/// Source: Metamath, 4.2.6 and appendix B.
pub fn proof_table(
    alloc: Global,
    frames: &Frames,
    at: usize,
    items: &Items,
) -> Result<ProofTable, AllocError>
    requires { IsRight frames.now.statements at items.now }
    ensures steps { IfOk result (λ table. AreSteps frames.now.statements at items.now (steps_of table)) }
    ensures rows { IfOk result (λ table. AreRows frames.now.statements at frames.now.names table) }
    ensures last { IfOk result (λ table. (s : Statement) → stmt_at frames.now.statements at ≡ Some s
        → expr_in frames.now.names table (length table - 1) ≡ expr_of s) }
    ensures derives { IfOk result
        (λ table. Derives frames.now.statements at items.now (last_unfolded frames.now.statements (steps_of table))) }
{
    let mut draft = TableDraft::new(alloc);
    match run(alloc, frames, at, items, &mut draft)? {
        Outcome::Right(results) => Ok(ProofTable {
            stored: draft.stored,
            symbols: results.into_symbols(),
        }),
        Outcome::Failed(_) => unreachable!(),
    }
}
