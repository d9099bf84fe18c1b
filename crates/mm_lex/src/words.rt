//! A list of words in one text.
ghost use Rattle.std.specs.Prelude.{◌≡◌, ◌↔◌, [], ◌∷◌, ◌++◌, ◌==◌, ◌≤◌, length, count_by, IsTrue};
ghost use Rattle.std.specs.Prelude.{IfOk, OnOk, OnErr};
ghost use Rattle.mm_lex.specs.Words.{spaced, words_of, is_word, AreWords};
ghost use Rattle.mm_lex.specs.Stored.WordStorage.{bytes_of, IsLengthValid};

use crate::word::{MAX_INLINE, WordStorage, store_bytes, stored_bytes};
use crate::word_iter::WordIter;
use std::alloc::{AllocError, Global};
use std::marker::Model;

/// A list of words. It stores them in one text, separated by single spaces: inline if the text is
/// short. In contracts, a `Words` is the list of its words.
#[derive(Drop)]
pub struct Words {
    alloc: Global,
    text: WordStorage,
}

impl Model for Words {
    ghost use Rattle.std.specs.Prelude.{ℕ, List};
    ghost use Rattle.mm_lex.specs.Words.{words_of, AreWords};
    ghost use Rattle.mm_lex.specs.Stored.WordStorage.{bytes_of, IsLengthValid};

    ghost Value = { List (List ℕ) };

    ghost view = { λ a. words_of (bytes_of a.text) };

    ghost invariant = { λ a. IsLengthValid a.text × AreWords (words_of (bytes_of a.text)) };
}

impl Words {
    /// Returns an empty list.
    pub fn new(alloc: Global) -> Words
        ensures { result ≡ [] }
    {
        Words {
            alloc,
            text: WordStorage::Inline {
                len: 0,
                bytes: [0; MAX_INLINE],
            },
        }
    }

    /// Returns an empty list with capacity for `bytes` bytes, the spaces between words included. It
    /// does not allocate for at most 14 bytes.
    ///
    /// Errors: an allocation fails.
    pub fn with_capacity(alloc: Global, bytes: usize) -> Result<Words, AllocError>
        ensures { IfOk result (λ words. words ≡ []) }
    {
        if bytes <= MAX_INLINE {
            return Ok(Words::new(alloc));
        }
        let buffer = Vec::with_capacity(alloc, bytes)?;
        let text = WordStorage::Heap(Box::new(alloc, buffer)?);
        Ok(Words { alloc, text })
    }

    /// Appends a word.
    ///
    /// Errors: an allocation fails; the list is then unchanged. Cost: the length of the word, and
    /// of the whole list if the buffer grows.
    pub fn push(&mut self, word: &[u8]) -> Result<(), AllocError>
        requires { IsTrue (is_word word.now) }
        ensures ok { OnOk result (self.new ≡ self.old ++ word.now ∷ []) }
        ensures err { OnErr result (self.new ≡ self.old) }
    {
        extend_words(self.alloc, &mut self.text, word)
    }

    /// Appends the words of a text, in which they are separated by single spaces.
    ///
    /// Errors: an allocation fails; the list is then unchanged. Cost: the length of the text, and
    /// of the whole list if the buffer grows.
    pub fn push_text(&mut self, text: &[u8]) -> Result<(), AllocError>
        requires { AreWords (words_of text.now) }
        ensures ok { OnOk result (self.new ≡ self.old ++ words_of text.now) }
        ensures err { OnErr result (self.new ≡ self.old) }
    {
        extend_words(self.alloc, &mut self.text, text)
    }

    /// Returns the text of the list: the words, separated by single spaces. It copies nothing.
    pub fn as_text(&self) -> &[u8]
        ensures text { result.now ≡ spaced self.now }
        ensures words { AreWords self.now }
    {
        stored_bytes(&self.text)
    }

    /// Returns an iterator over the words, in order.
    pub fn iter(&self) -> WordIter<'_>
        ensures words { result ≡ self.now }
        ensures visible { AreWords self.now }
    {
        WordIter::new(stored_bytes(&self.text))
    }

    /// Returns the number of words, which it counts. Cost: the size of their text.
    pub fn len(&self) -> usize
        ensures { result ≡ length self.now }
    {
        count_words(stored_bytes(&self.text))
    }

    /// Returns whether there are no words.
    pub fn is_empty(&self) -> bool
        ensures { IsTrue result ↔ (self.now ≡ []) }
    {
        stored_bytes(&self.text).is_empty()
    }

    /// Frees the capacity that the words do not use. If no smaller block can be allocated, it
    /// stays.
    pub(crate) fn shrink(&mut self)
        ensures { self.new ≡ self.old }
    {
        if let WordStorage::Heap(buffer) = &mut self.text {
            buffer.shrink_to_fit();
        }
    }

    /// Returns an equal list, in a buffer that is no larger than needed.
    ///
    /// Errors: an allocation fails. Cost: the size of the text of the list.
    pub fn copy(&self, alloc: Global) -> Result<Words, AllocError>
        ensures { IfOk result (λ words. words ≡ self.now) }
    {
        let text = store_bytes(alloc, stored_bytes(&self.text))?;
        Ok(Words { alloc, text })
    }
}

/// Appends the words of `more` to those of the text. If an allocation fails, the text is unchanged.
fn extend_words(alloc: Global, text: &mut WordStorage, more: &[u8]) -> Result<(), AllocError>
    requires valid { IsLengthValid text.old }
    requires words { AreWords (words_of (bytes_of text.old)) }
    requires more { AreWords (words_of more.now) }
    ensures ok { OnOk result (words_of (bytes_of text.new) ≡ words_of (bytes_of text.old) ++ words_of more.now) }
    ensures words { AreWords (words_of (bytes_of text.new)) }
    ensures err { OnErr result (bytes_of text.new ≡ bytes_of text.old) }
    ensures valid { IsLengthValid text.new }
{
    match text {
        WordStorage::Heap(buffer) => push_words(&mut **buffer, more),
        WordStorage::Inline { .. } => {
            let joined = join_words(alloc, stored_bytes(text), more)?;
            *text = joined;
            Ok(())
        }
    }
}

/// Returns the words of `text` and then those of `more`, inline if `text` is empty and they fit.
fn join_words(alloc: Global, text: &[u8], more: &[u8]) -> Result<WordStorage, AllocError>
    requires words { AreWords (words_of text.now) }
    requires more { AreWords (words_of more.now) }
    ensures joined { IfOk result (λ kept. words_of (bytes_of kept) ≡ words_of text.now ++ words_of more.now) }
    ensures words { IfOk result (λ kept. AreWords (words_of (bytes_of kept))) }
    ensures valid { IfOk result IsLengthValid }
{
    if text.is_empty() {
        let kept = store_bytes(alloc, more)?;
        return Ok(kept);
    }
    let mut buffer = Vec::from_slice(alloc, text)?;
    push_words(&mut buffer, more)?;
    Ok(WordStorage::Heap(Box::new(alloc, buffer)?))
}

/// Appends the words of `more` to those of `text`. If an allocation fails, `text` is unchanged.
fn push_words(text: &mut Vec<u8>, more: &[u8]) -> Result<(), AllocError>
    requires words { AreWords (words_of text.old.items) }
    requires more { AreWords (words_of more.now) }
    ensures ok { OnOk result (words_of text.new.items ≡ words_of text.old.items ++ words_of more.now) }
    ensures words { AreWords (words_of text.new.items) }
    ensures err { OnErr result (text.new.items ≡ text.old.items) }
{
    if more.is_empty() {
        return Ok(());
    }
    if text.is_empty() {
        return text.extend_from_slice(more);
    }
    let len = text.len();
    text.push(b' ')?;
    let added = text.extend_from_slice(more);
    if added.is_err() {
        text.truncate(len);
    }
    added
}

/// Returns the number of words in a text: one more than its spaces, if it is not empty.
fn count_words(text: &[u8]) -> usize
    ensures { result ≡ length (words_of text.now) }
{
    if text.is_empty() {
        return 0;
    }
    count_spaces(text) + 1
}

fn count_spaces(text: &[u8]) -> usize
    ensures count { result ≡ count_by (λ b. b == 32) text.now }
    ensures within { result ≤ length text.now }
{
    text.iter().filter(|b| **b == b' ').count()
}
