//! Derivations as trees.

/// A derivation as a tree.
#[derive(Drop)]
pub enum Tree {
    /// A hypothesis, by position.
    Hyp(usize),
    /// An assertion, by position, and the derivations of its hypotheses in order.
    Apply(usize, Vec<Tree>),
}
