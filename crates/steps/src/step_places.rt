//! Finds equal steps by a map from the key of a step to its place. The key is the position that the
//! step cites and the places that it takes.
ghost use Rattle.std.specs.Prelude.{◌≡◌, ◌≢◌, ℕ, ◌∷◌, List, None, Some, IfOk, OnOk};
ghost use Rattle.steps.specs.Stored.Drafted.{place_of};

use std::alloc::{AllocError, Global};
use std::collections::BTreeMap;

/// Returns the key of a step: the cited position, followed by the places of the steps that it
/// takes.
pub fn step_key(alloc: Global, position: usize, taken: &[usize]) -> Result<Vec<usize>, AllocError>
    ensures { IfOk result (λ key. key.items ≡ position ∷ taken.now) }
{
    let mut key = Vec::with_capacity(alloc, taken.len().saturating_add(1))?;
    key.push(position)?;
    key.extend_from_slice(taken)?;
    Ok(key)
}

/// Returns the place of the step with this key, if there is one.
pub fn find_place(step_places: &BTreeMap<Vec<usize>, usize>, key: &[usize]) -> Option<usize>
    ensures { result ≡ place_of step_places.now key.now }
{
    step_places.get(key).copied()
}

/// Records the place of a step.
pub fn record_place(
    step_places: &mut BTreeMap<Vec<usize>, usize>,
    key: Vec<usize>,
    place: usize,
) -> Result<(), AllocError>
    ensures own { OnOk result (place_of step_places.new key.items ≡ Some place) }
    ensures others { OnOk result
        ((x : List ℕ) → x ≢ key.items → place_of step_places.new x ≡ place_of step_places.old x) }
{
    step_places.insert(key, place)?;
    Ok(())
}
