//! Compares the citations of a proof with the steps of a table, while the proof is verified.
ghost use Rattle.std.specs.Prelude.{◌≡◌, ◌<◌, ◌≤◌, suc, [], IfOk, IsTrue, OnOk, Some, length, slice_get};
ghost use Rattle.steps.specs.Rows.{steps_of};
ghost use Rattle.proof_text.specs.Spelled.{CitesNext, IsWhole};

use crate::walk::{Part, Walk};
use std::alloc::{AllocError, Global};
use steps::ProofTable;
use subst::SymbolRange;
use verify::Listener;

/// The steps that the items of a proof spell so far, by their places in a table, if they are those
/// of the table.
#[derive(Drop)]
pub(crate) struct SpelledSteps<'a> {
    /// The table.
    pub(crate) table: &'a ProofTable,
    /// The order in which citations and recalls are expected.
    pub(crate) walk: Walk<'a>,
    /// How many of the first steps of the table were cited.
    pub(crate) count: usize,
    /// The places of the steps of the results on the stack.
    pub(crate) stack: Vec<usize>,
    /// The places of the steps of the results that were marked.
    pub(crate) saved: Vec<usize>,
    /// Whether no item differed so far.
    pub(crate) are_same: bool,
}

impl<'a> SpelledSteps<'a> {
    /// Returns the steps of no items. The items are those of a walk through the table, which
    /// `merges` equal steps or does not.
    ///
    /// Errors: an allocation fails.
    pub(crate) fn new(
        alloc: Global,
        table: &'a ProofTable,
        merges: bool,
    ) -> Result<SpelledSteps<'a>, AllocError>
        ensures table { IfOk result (λ new. new.table.now ≡ table.now) }
        ensures none { IfOk result (λ new. (new.count ≡ 0) × (new.stack.items ≡ []) × (new.saved.items ≡ [])) }
    {
        Ok(SpelledSteps {
            table,
            walk: Walk::new(alloc, table, merges)?,
            count: 0,
            stack: Vec::new(alloc),
            saved: Vec::new(alloc),
            are_same: true,
        })
    }

    /// Returns whether the items spell all steps of the table, and leave one result.
    pub(crate) fn is_whole(&self) -> bool
        ensures { IsTrue result → IsWhole self.now }
    {
        self.are_same && self.count == self.table.len() && self.stack.len() == 1
    }

    /// Takes the citation of the statement at a position, which takes `count` results.
    fn cite(&mut self, position: usize, count: usize) -> Result<(), AllocError>
        ensures { OnOk result (CitesNext self.old self.new position count) }
    {
        match self.walk.next()? {
            Some(Part::Step(place)) => self.cite_step(place, position, count),
            _ => {
                self.are_same = false;
                Ok(())
            }
        }
    }

    /// Takes this citation if it is that of the step at a place.
    fn cite_step(&mut self, place: usize, position: usize, count: usize) -> Result<(), AllocError>
        ensures { OnOk result (CitesNext self.old self.new position count) }
    {
        if count > self.stack.len() || place > self.count {
            self.are_same = false;
            return Ok(());
        }
        let below = self.stack.len() - count;
        if !is_step(self.table, place, position, &self.stack[below..]) {
            self.are_same = false;
            return Ok(());
        }
        self.count = count_with(self.count, place)?;
        self.stack.truncate(below);
        self.stack.push(place)?;
        Ok(())
    }
}

impl<'a> Listener for SpelledSteps<'a> {
    ghost use Rattle.proof_text.specs.Spelled.{AreSpelled};

    ghost follows = { AreSpelled };

    fn hypothesis(&mut self, position: usize, _range: SymbolRange) -> Result<(), AllocError> {
        self.cite(position, 0)
    }

    fn assertion(
        &mut self,
        position: usize,
        count: usize,
        _range: SymbolRange,
    ) -> Result<(), AllocError> {
        self.cite(position, count)
    }

    fn mark(&mut self) -> Result<(), AllocError> {
        let len = self.stack.len();
        if len == 0 {
            self.are_same = false;
            return Ok(());
        }
        let place = self.stack[len - 1];
        self.saved.push(place)?;
        Ok(())
    }

    fn recall(&mut self, index: usize) -> Result<(), AllocError> {
        let _ = self.walk.next()?;
        if index >= self.saved.len() {
            self.are_same = false;
            return Ok(());
        }
        let place = self.saved[index];
        self.stack.push(place)?;
        Ok(())
    }
}

/// Returns whether the step at a place cites the statement at a position and takes these steps.
fn is_step(table: &ProofTable, place: usize, position: usize, taken: &[usize]) -> bool
    ensures { IsTrue result
        → slice_get (steps_of table.now) place ≡ Some (record { position = position; taken = taken.now }) }
{
    if place >= table.len() {
        return false;
    }
    if table.position(place) != position {
        return false;
    }
    table.taken(place) == taken
}

/// Returns how many of the first steps are cited with the step at a place, which is one of them or
/// the next.
///
/// Errors: there are 2^64 or more.
fn count_with(count: usize, place: usize) -> Result<usize, AllocError>
    requires { place ≤ count }
    ensures kept { IfOk result (λ new. place < count → new ≡ count) }
    ensures counted { IfOk result (λ new. (place < new) × (new ≤ suc count)) }
{
    if place < count {
        return Ok(count);
    }
    count.checked_add(1).ok_or(AllocError)
}
