//! The meaning of a citation.

/// The meaning, at one statement, of a citation of another.
#[derive(Clone, Copy, Drop)]
pub enum Meaning<'a> {
    /// An active hypothesis, and its expression.
    Hypothesis(&'a [u32]),
    /// An earlier assertion.
    Assertion,
    /// Nothing: the statement cannot be cited there.
    Nothing,
}
