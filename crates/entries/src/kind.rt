//! The kinds of statements.

/// The kind of a statement: one of the nine shapes of `mm_read::Stmt`, by the same names.
#[derive(Clone, Copy, Debug, Drop, PartialEq, Eq)]
pub enum Kind {
    Open,
    Close,
    Const,
    Var,
    Disj,
    Float,
    Ess,
    Axiom,
    Prove,
}
