//! Builds a table by listening to the run over the items of a proof.
ghost use Rattle.std.specs.Prelude.{◌≡◌, ℕ, ◌∷◌, [], List, OnOk};
ghost use Rattle.mm_lex.specs.Alphabet.{Name};
ghost use Rattle.mm_read.specs.declared.stmt.Stmt.{Stmt as Statement};
ghost use Rattle.steps.specs.Stored.Drafted.{IsDraft, AddsStep, CitesStep};

use crate::step_places::{find_place, record_place, step_key};
use std::alloc::{AllocError, Global};
use std::collections::BTreeMap;
use subst::SymbolRange;
use verify::Listener;

/// A step, with the range of its expression in a buffer.
#[derive(Drop)]
pub struct StoredStep {
    /// The position of the cited statement.
    pub position: usize,
    /// The places in the table of the steps whose results it takes.
    pub taken: Vec<usize>,
    /// The range of its expression.
    pub range: SymbolRange,
}

/// The steps so far, with the stack of results and the marked results. The expressions are ranges
/// of the symbols of the run's results.
#[derive(Drop)]
pub struct TableDraft {
    /// Where lists are allocated.
    pub alloc: Global,
    /// The steps.
    pub stored: Vec<StoredStep>,
    /// The places of the steps of the results on the stack.
    pub stack: Vec<usize>,
    /// The places of the steps of the results that were marked.
    pub saved: Vec<usize>,
    /// The place of each step, by its key (`step_key`).
    pub step_places: BTreeMap<Vec<usize>, usize>,
}

impl TableDraft {
    /// Returns a draft without steps.
    pub fn new(alloc: Global) -> TableDraft
        ensures draft { (S : List Statement) (at : ℕ) (names : List Name) (symbols : List ℕ)
            → IsDraft S at names symbols result }
        ensures empty { (result.stored.items ≡ []) × (result.stack.items ≡ []) × (result.saved.items ≡ []) }
    {
        TableDraft {
            alloc,
            stored: Vec::new(alloc),
            stack: Vec::new(alloc),
            saved: Vec::new(alloc),
            step_places: BTreeMap::new(alloc),
        }
    }

    /// Appends a step that is not in the table yet, and pushes its result.
    fn add_step(&mut self, key: Vec<usize>, step: StoredStep) -> Result<(), AllocError>
        requires { key.items ≡ step.position ∷ step.taken.items }
        ensures { OnOk result (AddsStep self.old self.new step) }
    {
        let place = self.stored.len();
        self.stored.push(step)?;
        record_place(&mut self.step_places, key, place)?;
        self.stack.push(place)?;
        Ok(())
    }

    /// Pushes the result of a step, and makes the step if there is none yet.
    ///
    /// Errors: an allocation fails. Cost: a look-up among the steps.
    fn cite_step(
        &mut self,
        position: usize,
        taken: Vec<usize>,
        range: SymbolRange,
    ) -> Result<(), AllocError>
        ensures { OnOk result
            (CitesStep self.old self.new (record { position = position; taken = taken.items }) range) }
    {
        let key = step_key(self.alloc, position, &taken)?;
        if let Some(place) = find_place(&self.step_places, &key) {
            self.stack.push(place)?;
            return Ok(());
        }
        self.add_step(
            key,
            StoredStep {
                position,
                taken,
                range,
            },
        )
    }
}

impl Listener for TableDraft {
    ghost use Rattle.steps.specs.Stored.Drafted.{IsDraftOf};

    ghost follows = { IsDraftOf };

    fn hypothesis(&mut self, position: usize, range: SymbolRange) -> Result<(), AllocError> {
        self.cite_step(position, Vec::new(self.alloc), range)
    }

    fn assertion(
        &mut self,
        position: usize,
        count: usize,
        range: SymbolRange,
    ) -> Result<(), AllocError> {
        let keep = self.stack.len().saturating_sub(count);
        let taken = self.stack.split_off(keep)?;
        self.cite_step(position, taken, range)
    }

    fn mark(&mut self) -> Result<(), AllocError> {
        let len = self.stack.len();
        if len > 0 {
            let place = self.stack[len - 1];
            self.saved.push(place)?;
        }
        Ok(())
    }

    fn recall(&mut self, index: usize) -> Result<(), AllocError> {
        if index < self.saved.len() {
            let place = self.saved[index];
            self.stack.push(place)?;
        }
        Ok(())
    }
}
