//! The labels and the letters of a compressed proof.

use crate::label_order::{CitedLabel, listed_positions};
use crate::labels::{label_at, position_at};
use crate::position_numbers::{CitedPositions, PositionNumbers};
use crate::request::TextRequest;
use crate::walk::{Part, Walk};
use mm_read::Stmt;
use std::alloc::{AllocError, Global};
use steps::ProofTable;

/// A compressed proof.
#[derive(Drop)]
pub(crate) struct CompressedCode {
    /// The positions of the statements whose labels are listed, in order.
    pub(crate) listed: Vec<usize>,
    /// The letters.
    pub(crate) letters: Vec<u8>,
}

/// Returns the compressed proof of the steps of a table. `mandatory` are the positions of the
/// mandatory hypotheses. A result is marked if a later step takes it again; that of a step which
/// takes no other is not marked, but cited again.
///
/// Errors: an allocation fails. Cost: the size of the table, for each step the logarithm of their
/// number, and that of `listed_positions`.
/// Source: Metamath, appendix B.
pub(crate) fn compressed_code(
    alloc: Global,
    request: &TextRequest<'_>,
    table: &ProofTable,
    mandatory: &[u32],
) -> Result<CompressedCode, AllocError> {
    let parts = merged_parts(alloc, table)?;
    let cited = CitedPositions::new(alloc, table)?;
    let mut numbers = PositionNumbers::new(alloc, &cited)?;
    for (index, position) in mandatory.iter().enumerate() {
        numbers.set(*position as usize, index.saturating_add(1));
    }
    let labels = cited_labels(alloc, request, table, &cited, &numbers, &parts)?;
    let listed = listed_positions(alloc, &labels, mandatory.len())?;
    for (index, position) in listed.iter().enumerate() {
        numbers.set(
            *position,
            mandatory.len().saturating_add(index).saturating_add(1),
        );
    }
    let label_count = mandatory.len().saturating_add(listed.len());
    let letters = letters_of(alloc, table, &parts, &numbers, label_count)?;
    Ok(CompressedCode { listed, letters })
}

/// Returns the letters of the parts of a proof. `numbers` are those of the labels of the cited
/// positions, of which there are `label_count` with the mandatory ones.
fn letters_of(
    alloc: Global,
    table: &ProofTable,
    parts: &[Part],
    numbers: &PositionNumbers<'_>,
    label_count: usize,
) -> Result<Vec<u8>, AllocError> {
    let repeated = repeated_steps(alloc, table.len(), parts)?;
    let mut letters = Vec::with_capacity(alloc, parts.len())?;
    let mut marks = vec![in alloc; 0; table.len()]?;
    let mut mark_count = 0usize;
    for part in parts {
        match *part {
            Part::Step(place) => {
                push_number(&mut letters, numbers.of_step(place))?;
                if is_set(&repeated, place) {
                    letters.push(b'Z')?;
                    mark_count = mark_count.saturating_add(1);
                    set_number(&mut marks, place, mark_count);
                }
            }
            Part::Repeat(place) => {
                let number = label_count.saturating_add(number_at(&marks, place));
                push_number(&mut letters, number)?;
            }
        }
    }
    Ok(letters)
}

/// Returns the parts of a proof in which equal steps that take others are written once.
fn merged_parts(alloc: Global, table: &ProofTable) -> Result<Vec<Part>, AllocError> {
    let mut walk = Walk::new(alloc, table, true)?;
    let limit = part_limit(table);
    let mut parts = Vec::with_capacity(alloc, limit)?;
    for _ in 0..limit {
        match walk.next()? {
            Some(part) => parts.push(part)?,
            None => break,
        }
    }
    Ok(parts)
}

/// Returns the greatest number of parts of a proof whose steps are merged: one for the last step,
/// and one for each step that a step takes.
fn part_limit(table: &ProofTable) -> usize {
    let mut limit = 1usize;
    for place in 0..table.len() {
        limit = limit.saturating_add(table.taken(place).len());
    }
    limit
}

/// Returns for each of `count` steps whether it is repeated.
fn repeated_steps(alloc: Global, count: usize, parts: &[Part]) -> Result<Vec<bool>, AllocError> {
    let mut repeated = vec![in alloc; false; count]?;
    for part in parts {
        if let Part::Repeat(place) = *part {
            if place < repeated.len() {
                repeated[place] = true;
            }
        }
    }
    Ok(repeated)
}

/// Returns the labels that are listed, in the order of their first citation: those of all steps
/// but of the mandatory hypotheses, whose positions have numbers.
fn cited_labels(
    alloc: Global,
    request: &TextRequest<'_>,
    table: &ProofTable,
    cited: &CitedPositions,
    mandatory: &PositionNumbers<'_>,
    parts: &[Part],
) -> Result<Vec<CitedLabel>, AllocError> {
    let mut labels = Vec::new(alloc);
    let mut ordinals = PositionNumbers::new(alloc, cited)?;
    for part in parts {
        let Part::Step(place) = *part else {
            continue;
        };
        if mandatory.of_step(place) != 0 {
            continue;
        }
        if ordinals.of_step(place) == 0 {
            let position = position_at(table, place);
            labels.push(cited_label(request, position))?;
            ordinals.set(position, labels.len());
        }
        count_citation(&mut labels, ordinals.of_step(place));
    }
    Ok(labels)
}

/// Returns the label of the statement at a position, which is not cited yet.
fn cited_label(request: &TextRequest<'_>, position: usize) -> CitedLabel {
    let statement = request.statements.get(position.saturating_sub(1));
    CitedLabel {
        position,
        size: label_at(request.frames, position).len().saturating_add(1),
        is_hypothesis: matches!(statement, Some(Stmt::Float { .. }) | Some(Stmt::Ess { .. })),
        count: 0,
    }
}

/// Counts a citation of the label with an ordinal, from 1, if there is one.
fn count_citation(labels: &mut [CitedLabel], ordinal: usize) {
    let index = ordinal.saturating_sub(1);
    if index < labels.len() {
        labels[index].count = labels[index].count.saturating_add(1);
    }
}

/// Returns the number at a place, or 0 if there is none.
fn number_at(numbers: &[usize], place: usize) -> usize {
    numbers.get(place).copied().unwrap_or(0)
}

/// Sets the number at a place, if there is one.
fn set_number(numbers: &mut [usize], place: usize, number: usize) {
    if place < numbers.len() {
        numbers[place] = number;
    }
}

/// Returns whether the flag at a place is set.
fn is_set(flags: &[bool], place: usize) -> bool {
    flags.get(place).copied().unwrap_or(false)
}

/// Appends the letters of a number, which counts from 1.
///
/// Source: Metamath, appendix B: U to Y are the digits 1 to 5 in base 5, A to T the last digits 1
/// to 20 in base 20.
fn push_number(letters: &mut Vec<u8>, number: usize) -> Result<(), AllocError> {
    let Some(before) = number.checked_sub(1) else {
        return Err(AllocError);
    };
    push_leading(letters, before / 20)?;
    letters.push(b'A' + (before % 20) as u8)?;
    Ok(())
}

/// Appends the letters U to Y of which the value is `value`: none for 0.
fn push_leading(letters: &mut Vec<u8>, value: usize) -> Result<(), AllocError> {
    if value == 0 {
        return Ok(());
    }
    push_leading(letters, (value - 1) / 5)?;
    letters.push(b'U' + ((value - 1) % 5) as u8)?;
    Ok(())
}
