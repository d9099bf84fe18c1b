//! The range of the steps of a run that a picture shows.
ghost use Rattle.std.specs.Prelude.{◌≡◌, take, drop};
ghost use Rattle.run_pictures.specs.Posts.{shown_of};

use crate::step::Step;

/// A range of the steps of a run. Events and applications are counted together, from 0.
#[derive(Clone, Copy, Debug, PartialEq, Eq)]
pub struct StepRange {
    /// The index of the first step of the range, from 0.
    pub from: usize,
    /// The number of steps of the range; it has fewer if the run ends before.
    pub count: usize,
}

/// Returns the steps of a range.
pub(crate) fn shown(steps: &[Step], range: StepRange) -> &[Step]
    ensures { result.now ≡ shown_of steps.now range.from range.count }
{
    take_steps(skip_steps(steps, range.from), range.count)
}

/// Returns the steps after the first `count`.
#[tactic(auto, using(std::proofs::lemmas::List::drop_all))]
fn skip_steps(steps: &[Step], count: usize) -> &[Step]
    ensures { result.now ≡ drop count steps.now }
{
    if count < steps.len() {
        &steps[count..]
    } else {
        &[]
    }
}

/// Returns the first `count` steps, or all if there are fewer.
#[tactic(auto, using(std::proofs::lemmas::List::take_all))]
fn take_steps(steps: &[Step], count: usize) -> &[Step]
    ensures { result.now ≡ take count steps.now }
{
    if count < steps.len() {
        &steps[..count]
    } else {
        steps
    }
}
