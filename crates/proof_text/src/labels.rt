//! Labels of statements by their positions.

use frame::Frames;
use steps::ProofTable;

/// Returns the position that the step at a place cites, or 0 if there is no such step.
pub(crate) fn position_at(table: &ProofTable, place: usize) -> usize {
    if place < table.len() {
        table.position(place)
    } else {
        0
    }
}

/// Returns the label of the statement at a position, empty if it has none.
pub(crate) fn label_at(frames: &Frames, position: usize) -> &[u8] {
    if position == 0 || position > frames.len() {
        return &[];
    }
    frames.label(position).unwrap_or(&[])
}
