//! The order in which the steps of a proof are written: each after those that it takes.

use std::alloc::{AllocError, Global};
use steps::ProofTable;

/// One part of a proof as it is written, by the place of a step in the table.
#[derive(Clone, Copy, Debug, Drop, PartialEq, Eq)]
pub(crate) enum Part {
    /// The citation of a step. What it takes was written before.
    Step(usize),
    /// The result of a step that was written before.
    Repeat(usize),
}

/// A step whose citation is not written yet.
#[derive(Clone, Copy, Drop)]
struct BegunStep<'a> {
    /// Its place in the table.
    place: usize,
    /// The places of the steps that it takes and that are neither written nor begun.
    left: &'a [usize],
}

/// A walk from the last step of a table through all that it takes.
#[derive(Drop)]
pub(crate) struct Walk<'a> {
    table: &'a ProofTable,
    /// The steps that were begun, each one taken by the one before it.
    begun: Vec<BegunStep<'a>>,
    /// For each step that takes others whether its citation was written.
    written: Vec<bool>,
    /// Whether a step that takes others is written only once.
    merges: bool,
}

impl<'a> Walk<'a> {
    /// Returns a walk at its beginning. If it `merges`, a step that takes others is written once,
    /// and is a `Repeat` wherever else it is taken.
    ///
    /// Errors: an allocation fails.
    pub(crate) fn new(
        alloc: Global,
        table: &'a ProofTable,
        merges: bool,
    ) -> Result<Walk<'a>, AllocError> {
        let mut begun = Vec::new(alloc);
        if let Some(place) = table.len().checked_sub(1) {
            let left = steps_taken(table, place);
            begun.push(BegunStep { place, left })?;
        }
        Ok(Walk {
            table,
            begun,
            written: vec![in alloc; false; table.len()]?,
            merges,
        })
    }

    /// Returns the next part, or `None` after the last.
    ///
    /// Errors: an allocation fails. Cost: the steps that it begins, each of which is taken by the
    /// one begun before it.
    pub(crate) fn next(&mut self) -> Result<Option<Part>, AllocError> {
        for _ in 0..self.table.len().saturating_add(1) {
            let Some(step) = self.begun.pop() else {
                return Ok(None);
            };
            let Some((&place, left)) = step.left.split_first() else {
                self.record_written(step.place);
                return Ok(Some(Part::Step(step.place)));
            };
            self.begun.push(BegunStep {
                place: step.place,
                left,
            })?;
            let left = steps_taken(self.table, place);
            if left.is_empty() {
                return Ok(Some(Part::Step(place)));
            }
            if self.merges && self.is_written(place) {
                return Ok(Some(Part::Repeat(place)));
            }
            self.begun.push(BegunStep { place, left })?;
        }
        Ok(None)
    }

    /// Records that the citation of a step was written.
    fn record_written(&mut self, place: usize) {
        if place < self.written.len() {
            self.written[place] = true;
        }
    }

    /// Returns whether the citation of a step that takes others was written.
    fn is_written(&self, place: usize) -> bool {
        place < self.written.len() && self.written[place]
    }
}

/// Returns the places of the steps that the step at a place takes.
fn steps_taken(table: &ProofTable, place: usize) -> &[usize] {
    if place < table.len() {
        table.taken(place)
    } else {
        &[]
    }
}
