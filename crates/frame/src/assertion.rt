//! The frame of an assertion as a value of its own.
ghost use Rattle.std.specs.Prelude.{◌≡◌};

use mm_lex::Words;
use smallvec::SmallVec;
use std::marker::Model;

/// The frame of an assertion (Metamath, 4.2.7).
///
/// Contracts see its mandatory hypotheses by position, the lists of disjoint variables, and its
/// conclusion.
#[derive(Drop)]
pub struct Frame {
    /// The positions of the mandatory hypotheses.
    pub(crate) hypotheses: SmallVec<usize, 8>,
    /// For each active `$d` its mandatory variables, if they are two or more.
    pub(crate) groups: Vec<Words>,
    /// The expression of the assertion.
    pub(crate) conclusion: Words,
}

impl Model for Frame {
    ghost use Rattle.frame.specs.Parts.{FrameParts};

    ghost Value = { FrameParts };

    ghost view = { λ a. record { hypotheses = a.hypotheses.items; groups = a.groups.items; conclusion = a.conclusion } };
}

impl Frame {
    /// Returns the positions of the mandatory hypotheses, in order, counted from 1.
    pub fn hypotheses(&self) -> &[usize]
        ensures { result.now ≡ self.now.hypotheses }
    {
        self.hypotheses.as_slice()
    }

    /// Returns the disjoint variable conditions: for each active `$d` its mandatory variables, if
    /// they are two or more.
    pub fn groups(&self) -> &[Words]
        ensures { result.now ≡ self.now.groups }
    {
        self.groups.as_slice()
    }

    /// Returns the expression of the assertion.
    pub fn conclusion(&self) -> &Words
        ensures { result.now ≡ self.now.conclusion }
    {
        &self.conclusion
    }
}
