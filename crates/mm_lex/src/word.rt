//! One word, stored inline if it is short.
ghost use Rattle.std.specs.Prelude.{◌≡◌, IsTrue, IfOk};
ghost use Rattle.mm_lex.specs.Words.{is_word};
ghost use Rattle.mm_lex.specs.Stored.WordStorage.{bytes_of, IsLengthValid};

use std::alloc::{AllocError, Global};
use std::marker::Model;

/// The maximum number of bytes that are stored inline, that is, without an allocation.
pub(crate) const MAX_INLINE: usize = 14;

/// Where the bytes of a word, or of a list of words, are stored.
#[derive(Drop)]
pub enum WordStorage {
    /// Here: they are the first `len` of these bytes.
    Inline { len: u8, bytes: [u8; MAX_INLINE] },
    /// On the heap: all bytes of the vector. The box keeps this variant no larger than `Inline`.
    Heap(Box<Vec<u8>>),
}

/// A word: at least one byte, each from 0x21 to 0x7E. In contracts, a `Word` is the list of its
/// bytes.
#[derive(Drop)]
pub struct Word {
    bytes: WordStorage,
}

impl Model for Word {
    ghost use Rattle.std.specs.Prelude.{ℕ, List, IsTrue};
    ghost use Rattle.mm_lex.specs.Words.{is_word};
    ghost use Rattle.mm_lex.specs.Stored.WordStorage.{bytes_of, IsLengthValid};

    ghost Value = { List ℕ };

    ghost view = { λ a. bytes_of a.bytes };

    ghost invariant = { λ a. IsLengthValid a.bytes × IsTrue (is_word (bytes_of a.bytes)) };
}

impl Word {
    /// Returns the word with these bytes. It does not allocate for a word of at most 14 bytes.
    ///
    /// Errors: an allocation fails. Cost: the length of the word.
    pub fn new(alloc: Global, bytes: &[u8]) -> Result<Word, AllocError>
        requires { IsTrue (is_word bytes.now) }
        ensures { IfOk result (λ word. word ≡ bytes.now) }
    {
        let bytes = store_bytes(alloc, bytes)?;
        Ok(Word { bytes })
    }

    /// Returns the word's bytes.
    pub fn as_bytes(&self) -> &[u8]
        ensures bytes { result.now ≡ self.now }
        ensures word { IsTrue (is_word self.now) }
    {
        stored_bytes(&self.bytes)
    }

    /// Returns an equal word.
    ///
    /// Errors: an allocation fails. Cost: the length of the word.
    pub fn copy(&self, alloc: Global) -> Result<Word, AllocError>
        ensures { IfOk result (λ word. word ≡ self.now) }
    {
        Word::new(alloc, self.as_bytes())
    }
}

/// Returns the bytes.
pub(crate) fn stored_bytes(storage: &WordStorage) -> &[u8]
    requires { IsLengthValid storage.now }
    ensures { result.now ≡ bytes_of storage.now }
{
    match storage {
        WordStorage::Inline { len, bytes } => &bytes[..*len as usize],
        WordStorage::Heap(bytes) => bytes.as_slice(),
    }
}

/// Returns a copy of the bytes, inline if they fit.
pub(crate) fn store_bytes(alloc: Global, bytes: &[u8]) -> Result<WordStorage, AllocError>
    ensures bytes { IfOk result (λ kept. bytes_of kept ≡ bytes.now) }
    ensures valid { IfOk result IsLengthValid }
{
    let len = bytes.len();
    if len > MAX_INLINE {
        let all = Vec::from_slice(alloc, bytes)?;
        return Ok(WordStorage::Heap(Box::new(alloc, all)?));
    }
    let mut inline = [0; MAX_INLINE];
    inline[..len].copy_from_slice(bytes);
    Ok(WordStorage::Inline {
        len: len as u8,
        bytes: inline,
    })
}
