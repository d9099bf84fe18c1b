//! Compares the steps of two proofs.
ghost use Rattle.std.specs.Prelude.{◌≡◌, ◌<◌, length, get_or, IsTrue};
ghost use Rattle.steps.specs.Rows.{no_row, steps_of};

use steps::ProofTable;

/// Returns whether two tables have the same steps; their expressions are not compared.
///
/// Cost: the size of the tables.
pub(crate) fn have_same_steps(left: &ProofTable, right: &ProofTable) -> bool
    ensures { IsTrue result → steps_of left.now ≡ steps_of right.now }
{
    if left.len() != right.len() {
        return false;
    }
    for place in 0..left.len() {
        if !is_same_step(left, right, place) {
            return false;
        }
    }
    true
}

/// Returns whether the steps at a place are the same.
fn is_same_step(left: &ProofTable, right: &ProofTable, place: usize) -> bool
    requires left { place < length left.now }
    requires right { place < length right.now }
    ensures { IsTrue result
        → (get_or left.now place no_row).step ≡ (get_or right.now place no_row).step }
{
    if left.position(place) != right.position(place) {
        return false;
    }
    left.taken(place) == right.taken(place)
}
