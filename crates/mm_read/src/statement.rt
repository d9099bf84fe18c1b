//! Reads one statement of a text, from its first token on.
ghost use Rattle.std.specs.Prelude.{◌∷◌, ◌≤◌, [], length, IsTrue, IfOk, IfErr, codes};
ghost use Rattle.mm_lex.specs.Alphabet.{word, is_label};
ghost use Rattle.mm_lex.specs.Words.{is_word};
ghost use Rattle.mm_lex.specs.Tokens.{HasOnlyAllowedBytes, IsWordAt};
ghost use Rattle.mm_read.specs.Next.{IsNextAfter, IsFaultAfter};

use crate::fault::ReadFault;
use crate::keyword::{Keyword, keyword_of, token_bytes};
use crate::part::{expect_token, next_symbol, symbols_until};
use crate::stmt::Stmt;
use mm_lex::{Span, Word, is_label, next_token};
use std::alloc::Global;

/// Returns the statement whose first token is at `first`, and the offset after the statement.
///
/// Errors: `Text`, for a comment fault in the statement; `Shape`, with the number of the first
/// misplaced token, counted from 1 at `first`, or one past the last token if the text ends within
/// the statement; `Memory`, if an allocation fails. If there is a comment fault after `first`, even
/// after the statement, the clause `fault` does not say which token a `Shape` names. Cost: the size
/// of the statement with its comments.
pub fn statement(alloc: Global, text: &[u8], first: Span) -> Result<(Stmt, usize), ReadFault>
    requires allowed { HasOnlyAllowedBytes text.now }
    requires token { IsWordAt text.now first }
    ensures found { IfOk result (λ r. IsNextAfter text.now (word text.now first ∷ []) first.end r.0 r.1) }
    ensures fault { IfErr result (IsFaultAfter text.now (word text.now first ∷ []) first.end) }
{
    let word = token_bytes(text, first);
    let at = first.end;
    match keyword_of(word) {
        Keyword::Open => Ok((Stmt::Open, at)),
        Keyword::Close => Ok((Stmt::Close, at)),
        Keyword::Const => {
            let (constants, next) = symbols_until(alloc, text, at, 2, 1, b"$.")?;
            Ok((Stmt::Const(constants), next))
        }
        Keyword::Var => {
            let (variables, next) = symbols_until(alloc, text, at, 2, 1, b"$.")?;
            Ok((Stmt::Var(variables), next))
        }
        Keyword::Disj => {
            let (variables, next) = symbols_until(alloc, text, at, 2, 2, b"$.")?;
            Ok((Stmt::Disj(variables), next))
        }
        Keyword::Other if is_label(word) => labelled(alloc, text, word, at),
        _ => Err(ReadFault::Shape { token: 1 }),
    }
}

/// Returns the statement with this label, and the offset after the statement. `at` is the offset
/// after the label.
fn labelled(alloc: Global, text: &[u8], label: &[u8], at: usize) -> Result<(Stmt, usize), ReadFault>
    requires allowed { HasOnlyAllowedBytes text.now }
    requires place { at ≤ length text.now }
    requires word { IsTrue (is_word label.now) }
    requires label { IsTrue (is_label label.now) }
    ensures found { IfOk result (λ r. IsNextAfter text.now (label.now ∷ []) at r.0 r.1) }
    ensures fault { IfErr result (IsFaultAfter text.now (label.now ∷ []) at) }
{
    let Some(keyword) = next_token(text, at)? else {
        return Err(ReadFault::Shape { token: 2 });
    };
    match keyword_of(token_bytes(text, keyword)) {
        Keyword::Float => floating(alloc, text, label, keyword.end),
        Keyword::Ess => {
            let (expr, next) = symbols_until(alloc, text, keyword.end, 3, 1, b"$.")?;
            let label = Word::new(alloc, label)?;
            Ok((Stmt::Ess { label, expr }, next))
        }
        Keyword::Axiom => {
            let (expr, next) = symbols_until(alloc, text, keyword.end, 3, 1, b"$.")?;
            let label = Word::new(alloc, label)?;
            Ok((Stmt::Axiom { label, expr }, next))
        }
        Keyword::Prove => provable(alloc, text, label, keyword.end),
        _ => Err(ReadFault::Shape { token: 2 }),
    }
}

/// Returns the `$f` with this label, and the offset after the statement. `at` is the offset after
/// the keyword.
fn floating(alloc: Global, text: &[u8], label: &[u8], at: usize) -> Result<(Stmt, usize), ReadFault>
    requires allowed { HasOnlyAllowedBytes text.now }
    requires place { at ≤ length text.now }
    requires word { IsTrue (is_word label.now) }
    requires label { IsTrue (is_label label.now) }
    ensures found { IfOk result (λ r. IsNextAfter text.now (label.now ∷ codes "$f" ∷ []) at r.0 r.1) }
    ensures fault { IfErr result (IsFaultAfter text.now (label.now ∷ codes "$f" ∷ []) at) }
{
    let (constant, after_constant) = next_symbol(alloc, text, at, 3)?;
    let (variable, after_variable) = next_symbol(alloc, text, after_constant, 4)?;
    let next = expect_token(text, after_variable, 5, b"$.")?;
    let label = Word::new(alloc, label)?;
    let statement = Stmt::Float {
        label,
        constant,
        variable,
    };
    Ok((statement, next))
}

/// Returns the `$p` with this label, and the offset after the statement. `at` is the offset after
/// the keyword.
fn provable(alloc: Global, text: &[u8], label: &[u8], at: usize) -> Result<(Stmt, usize), ReadFault>
    requires allowed { HasOnlyAllowedBytes text.now }
    requires place { at ≤ length text.now }
    requires word { IsTrue (is_word label.now) }
    requires label { IsTrue (is_label label.now) }
    ensures found { IfOk result (λ r. IsNextAfter text.now (label.now ∷ codes "$p" ∷ []) at r.0 r.1) }
    ensures fault { IfErr result (IsFaultAfter text.now (label.now ∷ codes "$p" ∷ []) at) }
{
    let (expr, after) = symbols_until(alloc, text, at, 3, 1, b"$=")?;
    // Here `Shape` counts from 1 after the `$=`, which is token 3 + expr.len() of the statement.
    match symbols_until(alloc, text, after, 1, 0, b"$.") {
        Ok((proof, next)) => {
            let label = Word::new(alloc, label)?;
            Ok((Stmt::Prove { label, expr, proof }, next))
        }
        Err(ReadFault::Shape { token }) => Err(ReadFault::Shape {
            token: 3 + expr.len() + token,
        }),
        Err(ReadFault::Text(fault)) => Err(ReadFault::Text(fault)),
        Err(ReadFault::Memory) => Err(ReadFault::Memory),
    }
}
