//! The violation of a rule.

/// The violation of a rule: the part of a statement that breaks it, and the earlier statement with
/// which that part conflicts, if there is one. A symbol is given by its index, from 0, among the
/// symbols of the statement; an earlier statement by its position, from 1.
#[derive(Clone, Copy, Debug, Drop, PartialEq, Eq)]
pub enum RuleViolation {
    /// The statement as a whole.
    Statement,
    /// A symbol.
    Symbol {
        symbol_index: usize,
    },
    /// A symbol that occurs twice, by both indexes.
    Twice {
        first: usize,
        second: usize,
    },
    /// A symbol, and the earlier statement with which it conflicts.
    SymbolConflict {
        symbol_index: usize,
        earlier_position: usize,
    },
    /// The label, and the earlier statement with which it conflicts.
    LabelConflict {
        earlier_position: usize,
    },
}
