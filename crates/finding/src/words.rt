//! Splits a text into words, and turns words into parts of a pattern.
ghost use Rattle.std.specs.Prelude.{◌≡◌, ◌<◌, ◌≤◌, [], ◌∷◌, map, IfOk, IfSome, MatchOption, length};
ghost use Rattle.std.specs.Prelude.{option_map};
ghost use Rattle.std.specs.List.{find, list_any};
ghost use Rattle.mm_lex.specs.Alphabet.{has_byte};
ghost use Rattle.finding.specs.PatternWords.{words_in, words_after};
ghost use Rattle.finding.specs.Matches.{part_of};
ghost use Rattle.finding.specs.Parsing.{is_symbol_word, is_unknown_word};
ghost use Rattle.finding.specs.Segments.{part_view};

use crate::part::Part;
use std::alloc::{AllocError, Global};
use text::next_run;

/// A word of a text, and the offset after it.
#[derive(Clone, Copy, Drop)]
pub(crate) struct NextWord<'a> {
    pub word: &'a [u8],
    pub end: usize,
}

/// Returns the first word that begins at or after `at`.
pub(crate) fn next_word(text: &[u8], at: usize) -> Option<NextWord<'_>>
    requires { at ≤ length text.now }
    ensures first { MatchOption result (words_after text.now at ≡ [])
        (λ w. words_after text.now at ≡ w.word.now ∷ words_after text.now w.end) }
    ensures later { IfSome result (λ w. at < w.end) }
    ensures within { IfSome result (λ w. w.end ≤ length text.now) }
{
    match next_run(text, at) {
        Some(span) => Some(NextWord {
            word: &text[span.start..span.end],
            end: span.end,
        }),
        None => None,
    }
}

/// Returns the first word that has a `$` and is neither `$?` nor `$*`.
pub(crate) fn first_unknown_word(text: &[u8]) -> Option<&[u8]>
    ensures { option_map (λ w. w.now) result ≡ find is_unknown_word (words_in text.now) }
{
    let mut at = 0;
    while let Some(found) = next_word(text, at) {
        if is_unknown_word(found.word) {
            return Some(found.word);
        }
        at = found.end;
    }
    None
}

/// Returns whether some word is a symbol.
pub(crate) fn has_symbol(text: &[u8]) -> bool
    ensures { result ≡ list_any is_symbol_word (words_in text.now) }
{
    let mut at = 0;
    while let Some(found) = next_word(text, at) {
        if is_symbol_word(found.word) {
            return true;
        }
        at = found.end;
    }
    false
}

/// Returns the words as parts of a pattern.
pub(crate) fn parts_of(alloc: Global, text: &[u8]) -> Result<Vec<Part<'_>>, AllocError>
    ensures { IfOk result (λ parts. map part_view parts.items ≡ map part_of (words_in text.now)) }
{
    let mut parts = Vec::new(alloc);
    let mut at = 0;
    while let Some(found) = next_word(text, at) {
        parts.push(part_of(found.word))?;
        at = found.end;
    }
    Ok(parts)
}

/// Returns a word as a part of a pattern.
fn part_of(word: &[u8]) -> Part<'_>
    ensures { part_view result ≡ part_of word.now }
{
    if word == b"$?".as_slice() {
        Part::AnySymbol
    } else if word == b"$*".as_slice() {
        Part::AnySequence
    } else {
        Part::Symbol(word)
    }
}

/// Returns whether a word has a `$` and is neither `$?` nor `$*`.
fn is_unknown_word(word: &[u8]) -> bool
    ensures { result ≡ is_unknown_word word.now }
{
    !is_symbol_word(word) && !(word == b"$?".as_slice() || word == b"$*".as_slice())
}

/// Returns whether a word has no `$`.
fn is_symbol_word(word: &[u8]) -> bool
    ensures { result ≡ is_symbol_word word.now }
{
    !word.contains(&b'$')
}
