//! The words of a list, one after another.
ghost use Rattle.std.specs.Prelude.{◌≡◌, ◌==◌, ◌<◌, ◌≤◌, ◌∷◌, length, take, IfSome};
ghost use Rattle.std.specs.List.{position, position_or_len};
ghost use Rattle.mm_lex.specs.Words.{spaced, words_of, AreWords};

use std::marker::Model;
use std::simd::prelude::*;

/// How many bytes are compared at once.
const LANES: usize = 8;

/// An iterator over the words of a list. In contracts, a `WordIter` is the list of the words that
/// are left.
#[derive(Drop)]
pub struct WordIter<'a> {
    text: &'a [u8],
}

impl<'a> Model for WordIter<'a> {
    ghost use Rattle.std.specs.Prelude.{ℕ, List};
    ghost use Rattle.mm_lex.specs.Words.{words_of, AreWords};

    ghost Value = { List (List ℕ) };

    ghost view = { λ a. words_of a.text.now };

    ghost invariant = { λ a. AreWords (words_of a.text.now) };
}

impl<'a> WordIter<'a> {
    pub(crate) fn new(text: &'a [u8]) -> WordIter<'a>
        requires { AreWords (words_of text.now) }
        ensures { result ≡ words_of text.now }
    {
        WordIter { text }
    }

    /// Returns the text of the words that are left, separated by single spaces. It copies nothing.
    pub fn as_text(&self) -> &'a [u8]
        ensures text { result.now ≡ spaced self.now }
        ensures words { AreWords self.now }
    {
        self.text
    }
}

impl<'a> Iterator for WordIter<'a> {
    ghost use Rattle.std.specs.Iterator.{YieldsFirstRef, item_count};

    type Item = &'a [u8];

    ghost next_gives = { YieldsFirstRef (λ words. words) };

    ghost remaining = { item_count (λ words. words) };

    fn next(&mut self) -> Option<&'a [u8]> {
        if self.text.is_empty() {
            return None;
        }
        let (word, rest) = split_word(self.text);
        *self = WordIter { text: rest };
        Some(word)
    }
}

/// Returns the first word of a text, and the text after the space that follows it, empty after the
/// last word.
fn split_word<'a>(text: &'a [u8]) -> (&'a [u8], &'a [u8])
    requires some { 0 < length text.now }
    requires words { AreWords (words_of text.now) }
    ensures first { words_of text.now ≡ result.0.now ∷ words_of result.1.now }
    ensures rest { AreWords (words_of result.1.now) }
{
    match find_space(text) {
        Some(end) => (&text[..end], &text[end + 1..]),
        None => (text, &[]),
    }
}

/// Returns the index of the first space. It compares the first 8 bytes at once, since most words
/// end within them.
fn find_space(text: &[u8]) -> Option<usize>
    ensures place { result ≡ position (λ b. b == 32) text.now }
    ensures within { IfSome result (λ end. end < length text.now) }
{
    if text.len() >= LANES {
        let end = count_before_space(text);
        if end < LANES {
            return Some(end);
        }
    }
    text.iter().position(|b| *b == b' ')
}

/// Returns how many of the first 8 bytes precede the first space, or 8 if none is a space.
fn count_before_space(text: &[u8]) -> usize
    requires room { 8 ≤ length text.now }
    ensures count { result ≡ position_or_len (λ b. b == 32) (take 8 text.now) }
    ensures within { result ≤ 8 }
{
    let bytes = u8x8::from_slice(text);
    let mask = bytes.simd_eq(u8x8::splat(b' ')).to_bitmask();
    if mask == 0 {
        LANES
    } else {
        mask.trailing_zeros() as usize
    }
}
