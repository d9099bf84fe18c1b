//! The label and the symbols of a statement.

use mm_lex::Words;
use mm_read::Stmt;

/// Returns the label of a statement, or an empty one if it has none.
pub(crate) fn label_of(stmt: &Stmt) -> &[u8] {
    match stmt {
        Stmt::Float { label, .. } => label.as_bytes(),
        Stmt::Ess { label, .. } => label.as_bytes(),
        Stmt::Axiom { label, .. } => label.as_bytes(),
        Stmt::Prove { label, .. } => label.as_bytes(),
        _ => b"",
    }
}

/// Returns the number of the token, from 1, that is the first symbol of a statement: it follows the
/// keyword, and a label stands before the keyword of `$f`, `$e`, `$a` and `$p`. It is
/// unspecified for `${` and `$}`, which have no symbols.
pub(crate) fn first_symbol_token(stmt: &Stmt) -> usize {
    match stmt {
        Stmt::Const(_) => 2,
        Stmt::Var(_) => 2,
        Stmt::Disj(_) => 2,
        _ => 3,
    }
}

/// Returns the symbol at an index, from 0, or an empty one if there is none. In a `$f` each
/// index above 0 gives the variable.
pub(crate) fn symbol_at(stmt: &Stmt, index: usize) -> &[u8] {
    match stmt {
        Stmt::Const(names) => token_at(names, index),
        Stmt::Var(names) => token_at(names, index),
        Stmt::Disj(names) => token_at(names, index),
        Stmt::Float {
            constant,
            variable,
            ..
        } => {
            if index == 0 {
                constant.as_bytes()
            } else {
                variable.as_bytes()
            }
        }
        Stmt::Ess { expr, .. } => token_at(expr, index),
        Stmt::Axiom { expr, .. } => token_at(expr, index),
        Stmt::Prove { expr, .. } => token_at(expr, index),
        _ => b"",
    }
}

/// Returns the token at an index, from 0, or an empty one if there is none.
pub(crate) fn token_at(tokens: &Words, index: usize) -> &[u8] {
    tokens.iter().nth(index).unwrap_or(b"")
}
