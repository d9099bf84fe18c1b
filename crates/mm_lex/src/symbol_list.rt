//! Reads a list of symbols up to its end, copying many words at a time.
ghost use Rattle.std.specs.Prelude.{◌≡◌, ◌≤◌, [], length, drop, IsTrue, IfOk, IfErr};
ghost use Rattle.std.specs.List.{list_all};
ghost use Rattle.mm_lex.specs.Alphabet.{is_empty_or_starts_white, is_symbol};
ghost use Rattle.mm_lex.specs.Words.{is_word};
ghost use Rattle.mm_lex.specs.Tokens.{HasOnlyAllowedBytes};
ghost use Rattle.mm_lex.specs.Between.{IsCommentFaultOrMemoryAfter};
ghost use Rattle.mm_lex.specs.SymbolList.{AddsSymbols, IsListAndEnd};

use crate::fault::LexFault;
use crate::spaced_prefix::count_spaced_prefix;
use crate::span::Span;
use crate::visible_run::skip_white;
use crate::walk::next_token;
use crate::words::Words;
use memchr::memchr;
use std::alloc::{AllocError, Global};

/// Returns the symbols from `from` up to the first token that is not a symbol, and the span of that
/// token; if there is none, the symbols up to the end of the text, and `None`.
///
/// Errors: `Comment`, if a malformed comment or a `$)` outside comments comes before that token;
/// `Memory`. Cost: the bytes from `from` to the end of that token.
pub fn symbols(alloc: Global, text: &[u8], from: usize) -> Result<(Words, Option<Span>), LexFault>
    requires allowed { HasOnlyAllowedBytes text.now }
    requires place { from ≤ length text.now }
    ensures symbols { IfOk result (λ r. IsTrue (list_all is_symbol r.0)) }
    ensures end { IfOk result (λ r. IsListAndEnd text.now from r.0 r.1) }
    ensures fault { IfErr result (IsCommentFaultOrMemoryAfter text.now from) }
{
    let mut words = with_estimated_capacity(alloc, &text[from..])?;
    let mut at = push_pieces(&mut words, text, from)?;
    while let Some(span) = next_token(text, at)? {
        let word = &text[span.start..span.end];
        if !is_symbol(word) {
            words.shrink();
            return Ok((words, Some(span)));
        }
        words.push(word)?;
        at = span.end;
    }
    Ok((words, None))
}

/// Returns whether the word may be a math symbol or a token of a proof: whether it has no `$`.
///
/// Cost: the length of the word.
pub fn is_symbol(word: &[u8]) -> bool
    requires { IsTrue (is_word word.now) }
    ensures { result ≡ is_symbol word.now }
{
    !word.contains(&b'$')
}

/// Returns an empty list with capacity for the words up to the next `$`. The white space before
/// the first and after the last of them takes no room.
fn with_estimated_capacity(alloc: Global, text: &[u8]) -> Result<Words, AllocError>
    ensures { IfOk result (λ words. words ≡ []) }
{
    let room = memchr(b'$', text).unwrap_or(text.len());
    Words::with_capacity(alloc, room.saturating_sub(2))
}

/// Appends symbols from `from` on, a piece at a time: a prefix of the rest, without the white space
/// before it, in which single spaces separate symbols. It stops at the end of the text, or where
/// that prefix is empty or ends inside a word, and returns the offset from which the caller reads
/// word by word.
fn push_pieces(words: &mut Words, text: &[u8], from: usize) -> Result<usize, AllocError>
    requires allowed { HasOnlyAllowedBytes text.now }
    requires place { from ≤ length text.now }
    ensures { IfOk result (λ at. AddsSymbols text.now from at words.old words.new) }
{
    let mut at = from;
    while at < text.len() {
        let start = skip_white(text, at);
        let end = start + count_spaced_prefix(&text[start..]);
        if start == end || !is_word_end(text, end) {
            return Ok(start);
        }
        words.push_text(&text[start..end])?;
        at = end;
    }
    Ok(at)
}

/// Returns whether a word that reaches `at` ends there: at white space or at the end of the text.
fn is_word_end(text: &[u8], at: usize) -> bool
    requires { at ≤ length text.now }
    ensures { result ≡ is_empty_or_starts_white (drop at text.now) }
{
    at == text.len() || text[at].is_ascii_whitespace()
}
