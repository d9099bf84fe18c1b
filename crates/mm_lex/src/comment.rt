//! Finds the end of a comment.
ghost use Rattle.std.specs.Prelude.{◌-◌, ◌<◌, ◌≤◌, length, slice_index, IsTrue};
ghost use Rattle.mm_lex.specs.Alphabet.{is_white};
ghost use Rattle.mm_lex.specs.Comments.{PassesPlain, EndsComment};
ghost use Rattle.mm_lex.specs.Tokens.{HasOnlyAllowedBytes};

use crate::visible_run::{is_closer, is_opener, next_run};
use memchr::memchr;

/// How a comment ends.
#[derive(Drop)]
pub(crate) enum CommentEnd {
    /// A `$)` ends it: the offset of the byte after that.
    Closed(usize),
    /// Another `$(` precedes any `$)`: the offset of that `$(`.
    Nested(usize),
    /// Neither follows.
    Unclosed,
}

/// Returns how the comment that is open at `from` ends.
#[inline(never)]
pub(crate) fn comment_end(text: &[u8], from: usize) -> CommentEnd
    requires allowed { HasOnlyAllowedBytes text.now }
    requires place { from ≤ length text.now }
    ensures { EndsComment text.now from result }
{
    let mut at = from;
    while let Some(span) = next_run(text, dollar_run_start(text, at)) {
        let word = &text[span.start..span.end];
        if is_closer(word) {
            return CommentEnd::Closed(span.end);
        }
        if is_opener(word) {
            return CommentEnd::Nested(span.start);
        }
        at = span.end;
    }
    CommentEnd::Unclosed
}

/// Returns the start of the run that has the next `$` at or after `at`, or `at` if that run begins
/// before it, or the end of the text if no `$` follows. The runs from `at` up to the result have no
/// `$`, so none of them is `$(` or `$)`.
fn dollar_run_start(text: &[u8], at: usize) -> usize
    requires { at ≤ length text.now }
    ensures { PassesPlain text.now at result }
{
    match memchr(b'$', &text[at..]) {
        Some(dollar) => at + white_end(&text[at..at + dollar]),
        None => text.len(),
    }
}

/// Returns the offset after the last white byte, or 0 if there is none.
fn white_end(text: &[u8]) -> usize
    ensures within { result ≤ length text.now }
    ensures white { 0 < result → IsTrue (is_white (slice_index text.now (result - 1))) }
{
    for i in (0..text.len()).rev() {
        if text[i].is_ascii_whitespace() {
            return i + 1;
        }
    }
    0
}
