//! Searches descriptions for words.
ghost use Rattle.std.specs.Prelude.{◌≡◌, ◌↔◌, ◌≤◌, [], length, take, IsTrue, MatchOption};
ghost use Rattle.std.specs.Str.{str_to_ascii_lowercase};
ghost use Rattle.finding.specs.PatternWords.{words_in};
ghost use Rattle.finding.specs.DescriptionWords.{HasWord, HasWords};

use crate::words::next_word;
use std::marker::Model;

/// One or more words to search for in descriptions. Contracts see their list.
#[derive(Drop)]
pub struct SearchWords<'a> {
    text: &'a [u8],
}

impl<'a> Model for SearchWords<'a> {
    ghost use Rattle.std.specs.Prelude.{ℕ, List};
    ghost use Rattle.finding.specs.PatternWords.{words_in};

    ghost Value = { List (List ℕ) };

    ghost view = { λ a. words_in a.text.now };
}

impl<'a> SearchWords<'a> {
    /// Returns the words of a text, separated by white space, or `None` if it has none. Does not
    /// allocate.
    pub fn new(text: &'a str) -> Option<SearchWords<'a>>
        ensures { MatchOption result (words_in text.now ≡ [])
            (λ words. (words ≡ words_in text.now) × (words_in text.now ≡ [] → ⊥)) }
    {
        let text = text.as_bytes();
        match next_word(text, 0) {
            Some(_) => Some(SearchWords { text }),
            None => None,
        }
    }

    /// Returns whether a description contains each of the words, also inside a longer word,
    /// ignoring ASCII case. Does not allocate.
    ///
    /// Cost: at most the size of the description times that of the words.
    pub fn are_in(&self, description: &[u8]) -> bool
        ensures { IsTrue result ↔ HasWords description.now self.now }
    {
        has_words(description, self.text)
    }
}

/// Returns whether the description contains each of the words of a text.
fn has_words(description: &[u8], text: &[u8]) -> bool
    ensures { IsTrue result ↔ HasWords description.now (words_in text.now) }
{
    let mut at = 0;
    while let Some(found) = next_word(text, at) {
        if !has_word(description, found.word) {
            return false;
        }
        at = found.end;
    }
    true
}

/// Returns whether the text contains the word, ignoring ASCII case.
fn has_word(text: &[u8], word: &[u8]) -> bool
    ensures { IsTrue result ↔ HasWord text.now word.now }
{
    if word.is_empty() {
        return true;
    }
    for index in 0..text.len() {
        if starts_with_ignore_case(text.split_at(index).1, word) {
            return true;
        }
    }
    false
}

/// Returns whether the text begins with the word, ignoring ASCII case.
fn starts_with_ignore_case(text: &[u8], word: &[u8]) -> bool
    ensures { IsTrue result ↔ (str_to_ascii_lowercase (take (length word.now) text.now)
        ≡ str_to_ascii_lowercase word.now) }
{
    if word.len() > text.len() {
        return false;
    }
    text.split_at(word.len()).0.eq_ignore_ascii_case(word)
}
