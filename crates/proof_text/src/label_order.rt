//! The order in which a compressed proof lists its labels, which is that of metamath's
//! `save proof /compressed`.
//!
//! Labels that are cited more often come first as far as their numbers have fewer letters. Among
//! those whose numbers have equally many letters, hypotheses stand before assertions and each kind
//! in the order of first citation; but each line takes those of them that fill it the most.

use crate::lines::{INDENT, WIDTH};
use std::alloc::{AllocError, Global};
use std::cmp::Reverse;

/// A label that a compressed proof lists.
#[derive(Clone, Copy, Drop)]
pub(crate) struct CitedLabel {
    /// The position of the statement that has it.
    pub(crate) position: usize,
    /// The number of bytes of the label and of a space.
    pub(crate) size: usize,
    /// Whether the statement is a hypothesis.
    pub(crate) is_hypothesis: bool,
    /// How often the letters cite it.
    pub(crate) count: usize,
}

/// Returns the positions of the statements whose labels are listed, in the order in which they are.
/// `labels` are those of all, in the order of their first citation, and `mandatory` is the number
/// of mandatory hypotheses, which have the first numbers.
///
/// Errors: an allocation fails. Cost: the number of labels, times the number of lines that they
/// have.
pub(crate) fn listed_positions(
    alloc: Global,
    labels: &[CitedLabel],
    mandatory: usize,
) -> Result<Vec<usize>, AllocError> {
    let ordered = hypotheses_first(alloc, labels)?;
    let letter_counts = letter_counts(alloc, &ordered, mandatory)?;
    let mut listing = Listing {
        alloc,
        positions: Vec::with_capacity(alloc, labels.len())?,
        column: INDENT.saturating_add(2),
    };
    // No number has more letters than the last.
    let most = letter_count(mandatory.saturating_add(labels.len()));
    for count in 0..most.saturating_add(1) {
        let group = labels_with(alloc, &ordered, &letter_counts, count)?;
        listing.push_group(group)?;
    }
    Ok(listing.positions)
}

/// Returns the labels whose numbers have this count of letters, in order.
fn labels_with(
    alloc: Global,
    labels: &[CitedLabel],
    letter_counts: &[usize],
    count: usize,
) -> Result<Vec<CitedLabel>, AllocError> {
    let mut group = Vec::new(alloc);
    for (label, letters) in labels.iter().zip(letter_counts.iter()) {
        if *letters == count {
            group.push(*label)?;
        }
    }
    Ok(group)
}

/// Returns the labels of hypotheses and then those of assertions, each in order.
fn hypotheses_first(alloc: Global, labels: &[CitedLabel]) -> Result<Vec<CitedLabel>, AllocError> {
    let mut ordered = Vec::with_capacity(alloc, labels.len())?;
    for is_hypothesis in [true, false] {
        for label in labels {
            if label.is_hypothesis == is_hypothesis {
                ordered.push(*label)?;
            }
        }
    }
    Ok(ordered)
}

/// Returns for each label how many letters its number has, if those that are cited more often have
/// smaller numbers.
fn letter_counts(
    alloc: Global,
    labels: &[CitedLabel],
    mandatory: usize,
) -> Result<Vec<usize>, AllocError> {
    let mut indices = Vec::with_capacity(alloc, labels.len())?;
    for index in 0..labels.len() {
        indices.push((labels[index].count, index))?;
    }
    indices.sort_by_key(|cited| Reverse(cited.0))?;
    let mut counts = vec![in alloc; 0; labels.len()]?;
    let mut number = mandatory;
    for (_, index) in indices.as_slice() {
        number = number.saturating_add(1);
        if *index < counts.len() {
            counts[*index] = letter_count(number);
        }
    }
    Ok(counts)
}

/// Returns how many letters a number has, which counts from 1.
///
/// Source: Metamath, appendix B: 20 numbers have one letter, 100 have two, and five times as many
/// have one more.
fn letter_count(number: usize) -> usize {
    leading_count(number.saturating_sub(1) / 20).saturating_add(1)
}

/// Returns how many letters U to Y have this value: none for 0.
fn leading_count(value: usize) -> usize {
    if value == 0 {
        return 0;
    }
    leading_count((value - 1) / 5).saturating_add(1)
}

/// A list of labels that is written line by line.
#[derive(Drop)]
struct Listing {
    alloc: Global,
    /// The positions of the statements whose labels are listed so far.
    positions: Vec<usize>,
    /// The column at which the next label begins, from 0.
    column: usize,
}

impl Listing {
    /// Appends the labels of a group, so that each line takes those that fill it the most.
    fn push_group(&mut self, group: Vec<CitedLabel>) -> Result<(), AllocError> {
        let mut rest = group;
        // Each turn but one in two appends a label.
        for _ in 0..rest.len().saturating_mul(2) {
            if rest.is_empty() {
                break;
            }
            let room = WIDTH.saturating_add(1).saturating_sub(self.column);
            let mut chosen = fullest_line(self.alloc, &rest, room)?;
            if self.column == INDENT && !chosen.contains(&true) && !chosen.is_empty() {
                chosen[0] = true;
            }
            let left = self.push_chosen(&rest, &chosen)?;
            if !left.is_empty() {
                self.column = INDENT;
            }
            rest = left;
        }
        Ok(())
    }

    /// Appends those of the first labels that are chosen, and returns the others, with the labels
    /// after the first ones.
    fn push_chosen(
        &mut self,
        labels: &[CitedLabel],
        chosen: &[bool],
    ) -> Result<Vec<CitedLabel>, AllocError> {
        let mut left = Vec::with_capacity(self.alloc, labels.len())?;
        for (label, is_chosen) in labels.iter().zip(chosen.iter()) {
            if *is_chosen {
                self.positions.push(label.position)?;
                self.column = self.column.saturating_add(label.size);
            } else {
                left.push(*label)?;
            }
        }
        left.extend_from_slice(&labels[chosen.len().min(labels.len())..])?;
        Ok(left)
    }
}

/// Returns for each of the first labels whether a line with this room takes it, so that it is
/// filled the most. The line takes none of the labels after these.
///
/// Cost: the number of these labels, which end where the line can be full.
fn fullest_line(
    alloc: Global,
    labels: &[CitedLabel],
    room: usize,
) -> Result<Vec<bool>, AllocError> {
    let mut fills = Vec::new(alloc);
    // The line is left empty if no label is taken.
    let mut all = 1u128;
    for label in labels {
        if is_fill(all, room) {
            break;
        }
        fills.push(all)?;
        all |= fills_with(all, label.size);
    }
    let mut fill = greatest_fill(all, room);
    let mut chosen = vec![in alloc; false; fills.len()]?;
    for index in (0..fills.len()).rev() {
        if !is_fill(fills[index], fill) && index < labels.len() {
            chosen[index] = true;
            fill = fill.saturating_sub(labels[index].size);
        }
    }
    Ok(chosen)
}

/// Returns whether some labels fill this much of a line. The bit of a number in `fills` says
/// whether labels fill as much; no line has room for 128 bytes.
fn is_fill(fills: u128, fill: usize) -> bool {
    fill < 128 && (fills >> fill) & 1 == 1
}

/// Returns the fills of a line if a label of this size is taken besides the labels of the others.
fn fills_with(fills: u128, size: usize) -> u128 {
    if size < 128 { fills << size } else { 0 }
}

/// Returns the greatest of the fills that the room has place for, or 0 if there is none.
fn greatest_fill(fills: u128, room: usize) -> usize {
    let mut greatest = room;
    for _ in 0..room {
        if is_fill(fills, greatest) {
            break;
        }
        greatest = greatest.saturating_sub(1);
    }
    greatest
}
