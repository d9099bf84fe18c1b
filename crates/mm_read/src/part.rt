//! Reads the parts of a statement, each from an offset into the text.
ghost use Rattle.std.specs.Prelude.{◌≡◌, ◌<◌, ◌≤◌, ◌∷◌, ◌++◌, [], length, nat_le, IsTrue, IfOk};
ghost use Rattle.std.specs.Prelude.{IfErr};
ghost use Rattle.std.specs.List.{list_all};
ghost use Rattle.mm_lex.specs.Alphabet.{name_eq, is_symbol};
ghost use Rattle.mm_lex.specs.Tokens.{HasOnlyAllowedBytes};
ghost use Rattle.mm_lex.specs.Between.{AreTokensBetween};
ghost use Rattle.mm_read.specs.StatementParts.{IsListFault, IsTokenFault};

use crate::fault::ReadFault;
use crate::keyword::token_bytes;
use mm_lex::{Word, Words, is_symbol, next_token, symbols};
use std::alloc::Global;

/// Returns the symbols after `at`, at least `least` of them, up to the token `end`, and the offset
/// after that token.
///
/// `number` is the number that `Shape` gives to the first token after `at`. It is at most 3, the
/// number of the first symbol of an expression.
///
/// Errors: `Text`, for a comment fault before the end of the list; `Shape`, with the number of the
/// token that does not fit, or one past the last if the text ends first; `Memory`, if an allocation
/// fails. If there is a comment fault anywhere after `at`, the clause `fault` does not say which
/// token a `Shape` names; the same holds for the functions below.
pub fn symbols_until(
    alloc: Global,
    text: &[u8],
    at: usize,
    number: usize,
    least: usize,
    end: &[u8],
) -> Result<(Words, usize), ReadFault>
    requires allowed { HasOnlyAllowedBytes text.now }
    requires place { at ≤ length text.now }
    requires number { number ≤ 3 }
    ensures symbols { IfOk result (λ r. IsTrue (list_all is_symbol r.0)) }
    ensures many { IfOk result (λ r. least ≤ length r.0) }
    ensures between { IfOk result (λ r. AreTokensBetween text.now at r.1 (r.0 ++ end.now ∷ [])) }
    ensures later { IfOk result (λ r. at < r.1) }
    ensures fault { IfErr result (IsListFault text.now at number least end.now) }
{
    let (words, stop) = symbols(alloc, text, at)?;
    if let Some(span) = stop {
        if token_bytes(text, span) == end && has_at_least(&words, least) {
            return Ok((words, span.end));
        }
    }
    Err(ReadFault::Shape {
        token: number + words.len(),
    })
}

/// Returns whether there are at least `least` words. Cost: a constant if `least` is 0 or 1, else
/// the size of the words.
fn has_at_least(words: &Words, least: usize) -> bool
    ensures { result ≡ nat_le least (length words.now) }
{
    match least {
        0 => true,
        1 => !words.is_empty(),
        _ => words.len() >= least,
    }
}

/// Returns the next token, which has to be a symbol, and the offset after it.
///
/// `number` is the number of that token in its statement.
///
/// Errors: `Text`, for a comment fault before it; `Shape`, with that number, if it is no symbol or
/// no token is left; `Memory`, if an allocation fails.
pub fn next_symbol(
    alloc: Global,
    text: &[u8],
    at: usize,
    number: usize,
) -> Result<(Word, usize), ReadFault>
    requires allowed { HasOnlyAllowedBytes text.now }
    requires place { at ≤ length text.now }
    ensures symbol { IfOk result (λ r. IsTrue (is_symbol r.0)) }
    ensures between { IfOk result (λ r. AreTokensBetween text.now at r.1 (r.0 ∷ [])) }
    ensures fault { IfErr result (IsTokenFault text.now at number is_symbol) }
{
    if let Some(span) = next_token(text, at)? {
        let word = token_bytes(text, span);
        if is_symbol(word) {
            let symbol = Word::new(alloc, word)?;
            return Ok((symbol, span.end));
        }
    }
    Err(ReadFault::Shape { token: number })
}

/// Returns the offset after the next token, which has to be `end`.
///
/// `number` is the number of that token in its statement.
///
/// Errors: `Text`, for a comment fault before it; `Shape`, with that number, if it is not `end` or
/// no token is left.
pub fn expect_token(text: &[u8], at: usize, number: usize, end: &[u8]) -> Result<usize, ReadFault>
    requires allowed { HasOnlyAllowedBytes text.now }
    requires place { at ≤ length text.now }
    ensures between { IfOk result (λ next. AreTokensBetween text.now at next (end.now ∷ [])) }
    ensures fault { IfErr result (IsTokenFault text.now at number (λ w. name_eq w end.now)) }
{
    if let Some(span) = next_token(text, at)? {
        if token_bytes(text, span) == end {
            return Ok(span.end);
        }
    }
    Err(ReadFault::Shape { token: number })
}
