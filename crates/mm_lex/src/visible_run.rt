//! Finds the runs of visible bytes in a text whose bytes are all allowed, one after another.
ghost use Rattle.std.specs.Prelude.{◌≡◌, ◌-◌, ◌<◌, ◌≤◌, [], ◌∷◌, ℕ, not, length, take, drop};
ghost use Rattle.std.specs.Prelude.{MatchOption, IfSome, IsTrue, slice_index, IsFalse};
ghost use Rattle.std.specs.List.{position, position_or_len};
ghost use Rattle.mm_lex.specs.Alphabet.{is_white, is_empty_or_starts_white, runs_from, IsPartOfRun};
ghost use Rattle.mm_lex.specs.Alphabet.{name_eq};
ghost use Rattle.mm_lex.specs.Tokens.{opener, closer, HasOnlyAllowedBytes};

use crate::lanes::{count_visible, count_white};
use crate::span::Span;

/// Returns the first run in the text from `at` on, or `None` if only white space is left.
pub(crate) fn next_run(text: &[u8], at: usize) -> Option<Span>
    requires allowed { HasOnlyAllowedBytes text.now }
    requires place { at ≤ length text.now }
    ensures run { MatchOption result (runs_from at (drop at text.now) ≡ [])
        (λ s. runs_from at (drop at text.now) ≡ s ∷ runs_from s.end (drop s.end text.now)) }
    ensures place { IfSome result (λ s. IsPartOfRun text.now s) }
    ensures later { IfSome result (λ s. at ≤ s.start) }
{
    let rest = &text[at..];
    let white = count_white(rest);
    if white == rest.len() {
        return None;
    }
    let visible = count_visible(&rest[white..]);
    let start = at + white;
    Some(Span {
        start,
        end: start + visible,
    })
}

/// Returns the offset of the first byte at or after `at` that is not white, or the end of the text.
pub(crate) fn skip_white(text: &[u8], at: usize) -> usize
    requires allowed { HasOnlyAllowedBytes text.now }
    requires place { at ≤ length text.now }
    ensures later { at ≤ result }
    ensures within { result ≤ length text.now }
    ensures runs { runs_from at (drop at text.now) ≡ runs_from result (drop result text.now) }
    ensures not_white { result < length text.now → IsFalse (is_empty_or_starts_white (drop result text.now)) }
{
    at + count_white(&text[at..])
}

/// Returns whether the word is `$(`, which begins a comment.
pub(crate) fn is_opener(word: &[u8]) -> bool
    ensures { result ≡ name_eq word.now opener }
{
    word == b"$(".as_slice()
}

/// Returns whether the word is `$)`, which ends a comment.
pub(crate) fn is_closer(word: &[u8]) -> bool
    ensures { result ≡ name_eq word.now closer }
{
    word == b"$)".as_slice()
}
