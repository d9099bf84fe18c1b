//! Finds the tokens of statements.
ghost use Rattle.std.specs.Prelude.{◌≡◌, ℕ, ◌+◌, ◌-◌, ◌≤◌, Err, IfErr, IfOk, IfSome, IsSomeAnd};
ghost use Rattle.std.specs.Prelude.{Some, slice_get, length};
ghost use Rattle.std.specs.List.{All};
ghost use Rattle.mm_lex.specs.Alphabet.{word};
ghost use Rattle.mm_lex.specs.TextFaults.{IsCommentFault, IsFirstBadByte, IsLexFault};
ghost use Rattle.mm_lex.specs.Tokens.{IsWordAt, words};
ghost use Rattle.mm_read.specs.Statements.{Database};
ghost use Rattle.mm_read.specs.Reads.{Reads};
ghost use Rattle.places.specs.TokenSpans.{HasToken, IsCountedToken, IsTokenSpan, counted_token};
ghost use Rattle.places.specs.TokenSpans.{index_after_ends, ends_statement};
ghost use Rattle.places.specs.CommentFaults.{BeginsStatement};

use mm_lex::{LexFault, Span, tokens};
use std::alloc::Global;

/// Returns the span of the token with number `token` in the statement with number `statement`, both
/// from 1, in a text that reads as statements. A number above those of the statement's own tokens
/// counts on into the later statements. Returns `None` if a number is 0 or the text has no such
/// token.
///
/// Errors: those of `mm_lex::tokens`: `Text` and `Comment` exactly if the text has that fault, even
/// if every allocation fails; else `Memory`. Cost: the size of the text.
pub fn token_span(
    alloc: Global,
    text: &[u8],
    statement: usize,
    token: usize,
) -> Result<Option<Span>, LexFault>
    ensures token { (S : Database) → Reads text.now S → HasToken S statement token
        → IfOk result (λ span. IsSomeAnd span (IsTokenSpan text.now S statement token)) }
    ensures counted { IfOk result (IsCountedToken text.now statement token) }
    ensures text_fault { (offset : ℕ) → IsFirstBadByte text.now offset → result ≡ Err (LexFault.Text offset) }
    ensures comment_fault { (offset : ℕ) → IsCommentFault text.now offset → result ≡ Err (LexFault.Comment offset) }
    ensures fault { IfErr result (λ fault. IsLexFault text.now fault) }
{
    let spans = tokens(alloc, text)?;
    Ok(counted_token(text, spans.as_slice(), statement, token))
}

/// Returns the span of the token with number `token` after the statements before the one with
/// number `statement`, both from 1, or `None` if a number is 0 or `spans`, those of all tokens, has
/// no such token.
#[tactic(auto, using(crate::proofs::TokenSpanLemmas::statement_zero, crate::proofs::TokenSpanLemmas::token_zero, crate::proofs::TokenSpanLemmas::counted_is))]
fn counted_token(text: &[u8], spans: &[Span], statement: usize, token: usize) -> Option<Span>
    requires words { All (IsWordAt text.now) spans.now }
    ensures { result ≡ counted_token text.now spans.now statement token }
{
    if statement == 0 {
        return None;
    }
    if token == 0 {
        return None;
    }
    token_span_within(text, spans, statement, token)
}

/// Returns the span of the token with number `token` in the statement with number `statement`, both
/// from 1. A number above those of the statement's own tokens counts on into the later statements.
/// Returns `None` if `spans` has no such token. `spans` are meant to be those of all tokens, in
/// order; the clause requires of them only that each is that of a word of the text.
///
/// Cost: the number of tokens before it.
pub fn token_span_within(
    text: &[u8],
    spans: &[Span],
    statement: usize,
    token: usize,
) -> Option<Span>
    requires words { All (IsWordAt text.now) spans.now }
    requires from_one { (1 ≤ statement) × (1 ≤ token) }
    ensures { result ≡ slice_get spans.now (index_after_ends (statement - 1) (words text.now spans.now) + (token - 1)) }
{
    let first = first_token_index(text, spans, statement);
    let rest = &spans[first..];
    rest.get(token - 1).copied()
}

/// Returns the index in `spans` of the first token of the statement with number `statement`, from
/// 1, or the number of tokens if there are fewer statements.
///
/// Cost: the number of tokens before it.
pub(crate) fn first_token_index(text: &[u8], spans: &[Span], statement: usize) -> usize
    requires words { All (IsWordAt text.now) spans.now }
    requires from_one { 1 ≤ statement }
    ensures first { result ≡ index_after_ends (statement - 1) (words text.now spans.now) }
    ensures within { result ≤ length spans.now }
{
    let mut left = statement - 1;
    for (i, span) in spans.iter().enumerate() {
        if left == 0 {
            return i;
        }
        if ends_statement(&text[span.start..span.end]) {
            left -= 1;
        }
    }
    spans.len()
}

/// Returns whether this token ends a statement: `$.`, or `${` or `$}`, which are statements of one
/// token.
pub(crate) fn ends_statement(word: &[u8]) -> bool
    ensures { result ≡ ends_statement word.now }
{
    word == b"$.".as_slice() || word == b"${".as_slice() || word == b"$}".as_slice()
}

/// Returns the index in `spans` of the first token of the statement that contains the token at
/// `token_index` or, if `token_index` is the number of tokens, of the statement that the end of the
/// text cuts off.
///
/// Cost: the number of tokens before the token at `token_index`.
pub fn statement_start_index(text: &[u8], spans: &[Span], token_index: usize) -> usize
    requires words { All (IsWordAt text.now) spans.now }
    requires within { token_index ≤ length spans.now }
    ensures { BeginsStatement (words text.now spans.now) token_index result }
{
    let mut start = 0;
    for (i, span) in spans[..token_index].iter().enumerate() {
        if ends_statement(&text[span.start..span.end]) {
            start = i + 1;
        }
    }
    start
}
