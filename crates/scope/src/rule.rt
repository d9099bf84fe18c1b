//! The ten rules for a statement.

/// The rule that a statement breaks, or a failed allocation. Each rule is given by what it demands.
#[derive(Clone, Copy, Debug, Drop, PartialEq, Eq)]
pub enum Rule {
    /// `$c` is in the outermost block.
    G1,
    /// Each symbol of `$c` was never declared as a symbol, is not an earlier label, and occurs once
    /// in the statement.
    G2,
    /// Each symbol of `$v` is not an active variable, was never declared as a constant, is not an
    /// earlier label, and occurs once in the statement.
    G3,
    /// The label was never used as a label and never declared as a symbol.
    G4,
    /// Each symbol of the expression of `$f`, `$e`, `$a`, `$p` is a constant or an active variable.
    G5,
    /// The first symbol of that expression is a constant.
    G6,
    /// The second symbol of `$f` is a variable that has no active `$f`.
    G7,
    /// The symbols of `$d` are distinct active variables.
    G8,
    /// Each variable in `$e`, `$a`, `$p` has an active `$f`.
    G9,
    /// `$}` closes an open block; at the end of the text no block is open.
    G10,
    /// An allocation failed.
    Memory,
}
