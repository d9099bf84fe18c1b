//! The tokens of a text: its runs outside comments.
ghost use Rattle.std.specs.Prelude.{◌≡◌, ℕ, [], ◌∷◌, ◌++◌, not, if◌then◌else◌, IfOk, IfErr, IsTrue};
ghost use Rattle.std.specs.List.{All, list_all, position};
ghost use Rattle.mm_lex.specs.Alphabet.{is_allowed};
ghost use Rattle.mm_lex.specs.Tokens.{AreTokens, HasOnlyAllowedBytes, IsWordAt};
ghost use Rattle.mm_lex.specs.TextFaults.{IsFirstBadByte, IsCommentFault, IsLexFault};

use crate::comment::{CommentEnd, comment_end};
use crate::fault::LexFault;
use crate::span::Span;
use crate::visible_run::{is_closer, is_opener, next_run};
use std::alloc::Global;

/// Returns the tokens of a text, in order, comments excluded.
///
/// Errors: `Text`, the offset of the first byte that is not allowed, even inside a comment; else
/// `Comment`, the offset of the first `$(` inside or `$)` outside a comment, or of the `$(` that is
/// never closed; else `Memory`. The first two are returned even if every allocation fails. Cost:
/// the size of the text.
/// Source: Metamath, 4.1.1 and 4.1.2.
pub fn tokens(alloc: Global, text: &[u8]) -> Result<Vec<Span>, LexFault>
    ensures tokens { IfOk result (λ spans. AreTokens text.now spans.items) }
    ensures words { IfOk result (λ spans. All (IsWordAt text.now) spans.items) }

    // A fault is returned even if every allocation fails.
    ensures text_fault { (offset : ℕ) → IsFirstBadByte text.now offset → result ≡ Err (LexFault.Text offset) }
    ensures comment_fault { (offset : ℕ) → IsCommentFault text.now offset → result ≡ Err (LexFault.Comment offset) }
    ensures fault { IfErr result (λ fault. IsLexFault text.now fault) }
{
    if let Some(offset) = first_bad_byte(text) {
        return Err(LexFault::Text { offset });
    }
    split_tokens(alloc, text)
}

/// Returns the tokens of a text whose bytes are all allowed.
fn split_tokens(alloc: Global, text: &[u8]) -> Result<Vec<Span>, LexFault>
    requires { HasOnlyAllowedBytes text.now }
    ensures tokens { IfOk result (λ spans. AreTokens text.now spans.items) }
    ensures words { IfOk result (λ spans. All (IsWordAt text.now) spans.items) }
    ensures comment_fault { (offset : ℕ) → IsCommentFault text.now offset → result ≡ Err (LexFault.Comment offset) }
    ensures fault { IfErr result (λ fault. IsLexFault text.now fault) }
{
    let mut spans = Vec::new(alloc);
    let mut allocation_failed = false;
    let mut at = 0;
    while let Some(span) = next_run(text, at) {
        let word = &text[span.start..span.end];
        if is_closer(word) {
            return Err(LexFault::Comment { offset: span.start });
        }
        if is_opener(word) {
            match comment_end(text, span.end) {
                CommentEnd::Closed(end) => at = end,
                CommentEnd::Nested(offset) => return Err(LexFault::Comment { offset }),
                CommentEnd::Unclosed => return Err(LexFault::Comment { offset: span.start }),
            }
        } else {
            allocation_failed = add_token(&mut spans, allocation_failed, span);
            at = span.end;
        }
    }
    if allocation_failed {
        return Err(LexFault::Memory);
    }
    Ok(spans)
}

/// Appends a token, unless an earlier allocation failed. Returns whether an allocation has failed
/// by now.
fn add_token(spans: &mut Vec<Span>, allocation_failed: bool, span: Span) -> bool
    ensures items { spans.new.items ≡ (if result then spans.old.items else spans.old.items ++ span ∷ []) }
    ensures stays { IsTrue allocation_failed → IsTrue result }
{
    allocation_failed || spans.push(span).is_err()
}

/// Returns the offset of the first byte that is not allowed in a text, or `None` if there is none.
///
/// Cost: the size of the text. It first tests all bytes in a loop without branches, and goes
/// through them again to find the first bad one only if there is one.
pub fn first_bad_byte(text: &[u8]) -> Option<usize>
    ensures { result ≡ position (λ b. not (is_allowed b)) text.now }
{
    if are_allowed(text) {
        return None;
    }
    find_bad_byte(text)
}

fn find_bad_byte(text: &[u8]) -> Option<usize>
    ensures { result ≡ position (λ b. not (is_allowed b)) text.now }
{
    text.iter()
        .position(|b| !(b.is_ascii_graphic() || b.is_ascii_whitespace()))
}

/// Returns whether each byte is allowed in a text.
fn are_allowed(text: &[u8]) -> bool
    ensures { result ≡ list_all is_allowed text.now }
{
    let mut all = true;
    for b in text {
        all &= b.is_ascii_graphic() | b.is_ascii_whitespace();
    }
    all
}
