//! The parts of a statement to be appended.
use crate::buffer_part::BufferPart;

/// The symbols of a statement to be appended, and its parts: hypotheses, their typecodes, and
/// groups of variables, which are its mandatory pairs as lists.
#[derive(Clone, Copy, Drop)]
pub struct AssertionParts<'a> {
    /// Whether the parts are whole: all mandatory hypotheses and pairs of an assertion.
    pub whole: bool,
    /// The numbers of its symbols.
    pub symbols: &'a [u32],
    /// The positions of its hypotheses, in order.
    pub hypotheses: &'a [u32],
    /// The same hypotheses, each as the one number that `number_of` returns for it.
    pub numbered_hypotheses: &'a [u32],
    /// The typecode of each hypothesis.
    pub typecodes: &'a [u32],
    /// The variables of the groups, one group after another: a variable, and those whose images
    /// must be disjoint from its own.
    pub grouped_variables: &'a [u32],
    /// Where each group stands in `grouped_variables`.
    pub groups: &'a [BufferPart],
}
