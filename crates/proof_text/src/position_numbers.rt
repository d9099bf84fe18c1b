//! Numbers of the positions that the steps of a proof cite.

use std::alloc::{AllocError, Global};
use steps::ProofTable;

/// The positions that the steps of a table cite.
#[derive(Drop)]
pub(crate) struct CitedPositions {
    /// The positions, ascending, each once.
    positions: Vec<usize>,
    /// For each step the index of its position among these.
    of_steps: Vec<usize>,
}

impl CitedPositions {
    /// Returns the positions that the steps of a table cite.
    ///
    /// Errors: an allocation fails. Cost: the number of steps, times its logarithm.
    pub(crate) fn new(alloc: Global, table: &ProofTable) -> Result<CitedPositions, AllocError> {
        let mut positions = Vec::with_capacity(alloc, table.len())?;
        for place in 0..table.len() {
            positions.push(table.position(place))?;
        }
        positions.sort_unstable();
        positions.dedup();
        let mut of_steps = Vec::with_capacity(alloc, table.len())?;
        for place in 0..table.len() {
            of_steps.push(index_of(&positions, table.position(place)))?;
        }
        Ok(CitedPositions {
            positions,
            of_steps,
        })
    }
}

/// A number for each of some positions, from 1; 0 for a position that has none.
#[derive(Drop)]
pub(crate) struct PositionNumbers<'a> {
    /// The positions that may have numbers.
    cited: &'a CitedPositions,
    /// The number of each.
    numbers: Vec<usize>,
}

impl<'a> PositionNumbers<'a> {
    /// Returns a table in which none of these positions has a number.
    ///
    /// Errors: an allocation fails.
    pub(crate) fn new(
        alloc: Global,
        cited: &'a CitedPositions,
    ) -> Result<PositionNumbers<'a>, AllocError> {
        Ok(PositionNumbers {
            cited,
            numbers: vec![in alloc; 0; cited.positions.len()]?,
        })
    }

    /// Returns the number of the position that the step at a place cites, or 0 if it has none.
    ///
    /// Cost: a constant.
    pub(crate) fn of_step(&self, place: usize) -> usize {
        match self.cited.of_steps.get(place) {
            Some(index) => self.numbers.get(*index).copied().unwrap_or(0),
            None => 0,
        }
    }

    /// Sets the number of a position, if a step cites it.
    ///
    /// Cost: the logarithm of the number of positions.
    pub(crate) fn set(&mut self, position: usize, number: usize) {
        let index = index_of(&self.cited.positions, position);
        if index < self.numbers.len() {
            self.numbers[index] = number;
        }
    }
}

/// Returns the index of a position among positions that ascend, or their number if it is none of
/// them.
fn index_of(positions: &[usize], position: usize) -> usize {
    match positions.binary_search(&position) {
        Ok(index) => index,
        Err(_) => positions.len(),
    }
}
