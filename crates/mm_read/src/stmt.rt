//! The shapes of a statement.
use mm_lex::{Word, Words};

/// One statement. Its words are labels, symbols and tokens of a proof as they are written in the
/// text.
///
/// Reading accepts any symbol where one has to stand. By the rules of `scope`, the symbols of `$c`
/// are constants, those of `$v` and `$d` variables, those of `$f` a constant and a variable, and an
/// expression begins with a constant.
///
/// Source: Metamath, 4.1. `specs/Statements` defines which statements are well shaped.
#[derive(Drop)]
pub enum Stmt {
    /// The start of a block: `${`
    Open,
    /// The end of a block: `$}`
    Close,
    /// A declaration of constants: `$c`, one or more symbols, `$.`
    Const(Words),
    /// A declaration of variables: `$v`, one or more symbols, `$.`
    Var(Words),
    /// A disjoint variable condition: `$d`, two or more symbols, `$.`
    Disj(Words),
    /// A floating hypothesis: a label, `$f`, two symbols, `$.`
    Float {
        label: Word,
        constant: Word,
        variable: Word,
    },
    /// An essential hypothesis: a label, `$e`, an expression of one or more symbols, `$.`
    Ess {
        label: Word,
        expr: Words,
    },
    /// An axiomatic assertion: a label, `$a`, an expression, `$.`
    Axiom {
        label: Word,
        expr: Words,
    },
    /// A provable assertion: a label, `$p`, an expression, `$=`, the tokens of the proof, `$.`
    Prove {
        label: Word,
        expr: Words,
        proof: Words,
    },
}
