//! Walks from token to token through a text, without a list of them.
ghost use Rattle.std.specs.Prelude.{◌≤◌, length, IfOk, IfErr};
ghost use Rattle.mm_lex.specs.Tokens.{HasOnlyAllowedBytes};
ghost use Rattle.mm_lex.specs.Between.{IsNextToken, IsTokenCountAfter, IsCommentFaultAfter};

use crate::comment::{CommentEnd, comment_end};
use crate::fault::LexFault;
use crate::span::Span;
use crate::visible_run::{is_closer, is_opener, next_run};

/// Returns the next token at or after `at`, or `None` if none is left. `at` counts as outside
/// comments. If it is inside a word, the rest of that word is read as a word of its own.
///
/// Errors: `Comment`, if a malformed comment or a `$)` outside comments comes before the next
/// token. Cost: the bytes from `at` to the end of that token.
#[inline(always)]
pub fn next_token(text: &[u8], at: usize) -> Result<Option<Span>, LexFault>
    requires allowed { HasOnlyAllowedBytes text.now }
    requires place { at ≤ length text.now }
    ensures next { IfOk result (IsNextToken text.now at) }
    ensures fault { IfErr result (IsCommentFaultAfter text.now at) }
{
    let mut from = at;
    while let Some(run) = next_run(text, from) {
        let word = &text[run.start..run.end];
        if is_closer(word) {
            return Err(LexFault::Comment { offset: run.start });
        }
        if !is_opener(word) {
            return Ok(Some(run));
        }
        match comment_end(text, run.end) {
            CommentEnd::Closed(end) => from = end,
            CommentEnd::Nested(offset) => return Err(LexFault::Comment { offset }),
            CommentEnd::Unclosed => return Err(LexFault::Comment { offset: run.start }),
        }
    }
    Ok(None)
}

/// Returns the number of tokens at or after `at`.
///
/// Errors: `Comment`, if a malformed comment or a `$)` outside comments comes after `at`. Cost: the
/// size of the rest of the text.
pub fn count_tokens(text: &[u8], at: usize) -> Result<usize, LexFault>
    requires allowed { HasOnlyAllowedBytes text.now }
    requires place { at ≤ length text.now }
    ensures count { IfOk result (IsTokenCountAfter text.now at) }
    ensures within { IfOk result (λ count. count ≤ length text.now) }
    ensures fault { IfErr result (IsCommentFaultAfter text.now at) }
{
    let mut count = 0;
    let mut from = at;
    while let Some(span) = next_token(text, from)? {
        count += 1;
        from = span.end;
    }
    Ok(count)
}
