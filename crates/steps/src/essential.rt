//! Selects the essential steps: the last, and those that an essential step takes for a `$e`. Marks
//! say here which steps are essential; they are not the marks `Z` of a compressed proof.
ghost use Rattle.std.specs.Prelude.{◌≡◌, suc, ◌<◌, ◌≤◌, [], IfOk, OnOk, length, map, get_or};
ghost use Rattle.frame.specs.Below.{AreBelow};
ghost use Rattle.steps.specs.Rows.{no_row, steps_of, AreRows};
ghost use Rattle.steps.specs.Essential.{premise_places, AreEssential};
ghost use Rattle.steps.specs.Stored.Marked.{taken_for_essentials, mark_each, mark_last};
ghost use Rattle.steps.specs.Stored.Marked.{AreMarkedFrom, AreMarks};

use crate::steps_table::ProofTable;
use entries::{Hypotheses, Hypothesis};
use frame::{FrameBuffers, Frames, Meaning};
use std::alloc::{AllocError, Global};

/// Returns those of the taken places that are taken for a `$e`.
///
/// Errors: an allocation fails.
fn premises_among(
    alloc: Global,
    hypotheses: &Hypotheses<'_>,
    taken: &[usize],
) -> Result<Vec<usize>, AllocError>
    requires { length taken.now ≡ length hypotheses.now }
    ensures { IfOk result (λ list. list.items ≡ taken_for_essentials hypotheses.now taken.now) }
{
    let mut list = Vec::new(alloc);
    for k in 0..hypotheses.len() {
        match hypotheses.get(k) {
            Hypothesis::Float(_) => {}
            Hypothesis::Essential(_) => list.push(taken[k])?,
        }
    }
    Ok(list)
}

/// Returns the places of the steps that the step at a place takes for a `$e`.
fn premises_of(
    alloc: Global,
    frames: &Frames,
    at: usize,
    table: &ProofTable,
    place: usize,
    buffers: &mut FrameBuffers,
) -> Result<Vec<usize>, AllocError>
    requires at { (1 ≤ at) × (at ≤ length frames.now.statements) }
    requires rows { AreRows frames.now.statements at frames.now.names table.now }
    requires place { place < length table.now }
    ensures { IfOk result
        (λ list. list.items ≡ premise_places frames.now.statements (get_or table.now place no_row).step) }
{
    let position = table.position(place);
    match frames.meaning(at, position) {
        Meaning::Assertion => {
            let cited = frames.cited_view(position, buffers)?;
            premises_among(alloc, &cited.hypotheses, table.taken(place))
        }
        Meaning::Hypothesis(_) => Ok(Vec::new(alloc)),
        Meaning::Nothing => unreachable!(),
    }
}

/// Marks these places.
fn mark_all(list: &[usize], marks: &mut [bool])
    requires { AreBelow (length marks.old) list.now }
    ensures { marks.new ≡ mark_each list.now marks.old }
{
    for place in list {
        marks[*place] = true;
    }
}

/// Marks the steps that the step at a place takes for a `$e`, if that step is kept.
fn mark_premises(
    alloc: Global,
    frames: &Frames,
    at: usize,
    table: &ProofTable,
    place: usize,
    buffers: &mut FrameBuffers,
    marks: &mut [bool],
) -> Result<(), AllocError>
    requires at { (1 ≤ at) × (at ≤ length frames.now.statements) }
    requires rows { AreRows frames.now.statements at frames.now.names table.now }
    requires place { place < length table.now }
    requires marks { AreMarkedFrom frames.now.statements (steps_of table.now) (suc place) marks.old }
    ensures { OnOk result (AreMarkedFrom frames.now.statements (steps_of table.now) place marks.new) }
{
    if marks[place] {
        let premises = premises_of(alloc, frames, at, table, place, buffers)?;
        mark_all(&premises, marks);
    }
    Ok(())
}

/// Returns `count` marks, of which only the last is set.
fn last_marked(alloc: Global, count: usize) -> Result<Vec<bool>, AllocError>
    ensures { IfOk result (λ marks. marks.items ≡ mark_last count) }
{
    let mut marks = vec![in alloc; false; count]?;
    if count > 0 {
        marks[count - 1] = true;
    }
    Ok(marks)
}

/// Returns for each step whether it is kept: the last is, and each that a kept step takes for a
/// `$e`. Visits the steps from the last to the first, since a step takes only earlier steps.
fn marks_of(
    alloc: Global,
    frames: &Frames,
    at: usize,
    table: &ProofTable,
) -> Result<Vec<bool>, AllocError>
    requires at { (1 ≤ at) × (at ≤ length frames.now.statements) }
    requires rows { AreRows frames.now.statements at frames.now.names table.now }
    ensures { IfOk result (λ marks. AreMarks frames.now.statements (steps_of table.now) marks.items) }
{
    let count = table.len();
    let mut buffers = FrameBuffers::new(alloc);
    let mut marks = last_marked(alloc, count)?;
    for place in (0..count).rev() {
        mark_premises(alloc, frames, at, table, place, &mut buffers, &mut marks)?;
    }
    Ok(marks)
}

/// Returns the new number of the step at a place.
fn new_number(numbers: &[usize], place: usize) -> usize
    requires { place < length numbers.now }
    ensures { result ≡ get_or numbers.now place 0 }
{
    numbers[place]
}

/// Returns the new numbers of the steps at these places.
fn renumbered(alloc: Global, list: &[usize], numbers: &[usize]) -> Result<Vec<usize>, AllocError>
    requires { AreBelow (length numbers.now) list.now }
    ensures { IfOk result (λ taken. taken.items ≡ map (λ k. get_or numbers.now k 0) list.now) }
{
    let mut taken = Vec::new(alloc);
    for place in list {
        taken.push(new_number(numbers, *place))?;
    }
    Ok(taken)
}

/// Returns the essential steps of a table of the `$p` at position `at`: the last, and each step
/// that a kept step takes for a `$e`. They are renumbered, and each takes only the steps that it
/// took for a `$e`.
///
/// Errors: an allocation fails. Cost: the size of the table, and that of `Frames::cited_view` twice
/// for each step that cites an assertion.
/// Source: Metamath, 4.2.6.
pub fn essential_table(
    alloc: Global,
    frames: &Frames,
    at: usize,
    table: &ProofTable,
) -> Result<ProofTable, AllocError>
    requires at { (1 ≤ at) × (at ≤ length frames.now.statements) }
    requires rows { AreRows frames.now.statements at frames.now.names table.now }
    ensures { IfOk result (λ kept. AreEssential frames.now.statements table.now kept) }
{
    let marks = marks_of(alloc, frames, at, table)?;
    let mut kept = ProofTable::new(alloc);
    keep_marked(alloc, frames, at, table, &marks, &mut kept)?;
    Ok(kept)
}

/// Appends the marked steps to an empty table, each with only those places that it takes for a
/// `$e`, renumbered.
///
/// Errors: an allocation fails.
fn keep_marked(
    alloc: Global,
    frames: &Frames,
    at: usize,
    table: &ProofTable,
    marks: &[bool],
    kept: &mut ProofTable,
) -> Result<(), AllocError>
    requires at { (1 ≤ at) × (at ≤ length frames.now.statements) }
    requires rows { AreRows frames.now.statements at frames.now.names table.now }
    requires marks { AreMarks frames.now.statements (steps_of table.now) marks.now }
    requires empty { kept.old ≡ [] }
    ensures { OnOk result (AreEssential frames.now.statements table.now kept.new) }
{
    let mut buffers = FrameBuffers::new(alloc);
    let mut numbers = Vec::new(alloc);
    for place in 0..table.len() {
        numbers.push(kept.len())?;
        if marks[place] {
            let premises = premises_of(alloc, frames, at, table, place, &mut buffers)?;
            let taken = renumbered(alloc, &premises, &numbers)?;
            kept.push(table.position(place), taken, table.expr(place))?;
        }
    }
    Ok(())
}
