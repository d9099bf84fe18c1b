//! An assertion as a verifier reads it when a proof cites it.
ghost use Rattle.std.specs.Prelude.{◌≡◌, ◌<◌, length, map, slice_get, Some, IfOk};
ghost use Rattle.entries.specs.Hypotheses.{decoded_hypothesis};

use crate::buffer_part::item;
use crate::groups::Groups;
use std::alloc::AllocError;
use std::marker::Model;

/// Stands for the typecode of an expression that has no symbols. No symbol has this number.
pub const NO_TYPECODE: u32 = u32::MAX;

/// The least number that encodes a `$e`: a `$e` is encoded as this plus its position, a `$f` as the
/// number of its variable, which is lower.
pub const LEAST_ESSENTIAL: u32 = 0x8000_0000;

/// A mandatory hypothesis: a `$f` by its variable, a `$e` by its position.
#[derive(Clone, Copy, Debug, Drop, PartialEq, Eq)]
pub enum Hypothesis {
    /// A `$f`: the number of its variable.
    Float(u32),
    /// A `$e`: its position.
    Essential(u32),
}

/// Returns the number that encodes the hypothesis.
///
/// Errors: a variable or a position of 2^31 or more is reported as a failed allocation.
pub fn number_of(hypothesis: Hypothesis) -> Result<u32, AllocError>
    ensures { IfOk result (λ n. decoded_hypothesis n ≡ hypothesis) }
{
    match hypothesis {
        Hypothesis::Float(variable) if variable < LEAST_ESSENTIAL => Ok(variable),
        Hypothesis::Essential(position) if position < LEAST_ESSENTIAL => Ok(
            LEAST_ESSENTIAL + position,
        ),
        _ => Err(AllocError),
    }
}

/// Hypotheses, each encoded as one number. Contracts see the list of the hypotheses.
#[derive(Drop)]
pub struct Hypotheses<'a> {
    numbers: &'a [u32],
}

impl<'a> Model for Hypotheses<'a> {
    ghost use Rattle.std.specs.Prelude.{List, map};
    ghost use Rattle.entries.specs.declared.assertion_view.Hypothesis.{Hypothesis};
    ghost use Rattle.entries.specs.Hypotheses.{decoded_hypothesis};

    ghost Value = { List Hypothesis };

    ghost view = { λ a. map decoded_hypothesis a.numbers.now };
}

impl<'a> Hypotheses<'a> {
    /// Returns the hypotheses that these numbers encode.
    pub fn new(numbers: &'a [u32]) -> Hypotheses<'a>
        ensures { result ≡ map decoded_hypothesis numbers.now }
    {
        Hypotheses { numbers }
    }

    /// Returns a view of the same hypotheses. It saves time as `Groups::copy` does.
    #[inline(always)]
    pub fn copy(&self) -> Hypotheses<'a>
        ensures { result ≡ self.now }
    {
        Hypotheses {
            numbers: self.numbers,
        }
    }

    /// Returns how many hypotheses there are.
    pub fn len(&self) -> usize
        ensures { result ≡ length self.now }
    {
        self.numbers.len()
    }

    /// Returns the hypothesis at an index, from 0.
    #[inline(always)]
    pub fn get(&self, index: usize) -> Hypothesis
        requires { index < length self.now }
        ensures { slice_get self.now index ≡ Some result }
    {
        hypothesis_of(item(self.numbers, index))
    }
}

/// Returns the hypothesis that a number encodes.
#[inline(always)]
fn hypothesis_of(number: u32) -> Hypothesis
    ensures { result ≡ decoded_hypothesis number }
{
    if number < LEAST_ESSENTIAL {
        Hypothesis::Float(number)
    } else {
        Hypothesis::Essential(number - LEAST_ESSENTIAL)
    }
}

/// An assertion as a verifier reads it, with its symbols as numbers. It has all mandatory
/// hypotheses of the assertion.
#[derive(Drop)]
pub struct AssertionView<'a> {
    /// The typecode of each mandatory hypothesis, in order.
    pub typecodes: &'a [u32],
    /// The mandatory hypotheses, in order.
    pub hypotheses: Hypotheses<'a>,
    /// The symbols of the assertion's expression.
    pub conclusion: &'a [u32],
    /// Whether `pairs` has all mandatory pairs of the assertion. Else it is empty: they are too
    /// many to be written out.
    pub pairs_listed: bool,
    /// The mandatory pairs, as lists: a variable, and those whose images must be disjoint from its
    /// own.
    pub pairs: Groups<'a>,
}
