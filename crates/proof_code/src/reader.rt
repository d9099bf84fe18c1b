//! Reads compressed proofs into a buffer that is reused.
ghost use Rattle.std.specs.Prelude.{◌≡◌, ℕ, ◌+◌, ◌*◌, ◌^◌, ◌<◌, ◌≤◌, [], List, length, take};
ghost use Rattle.std.specs.Prelude.{IsTrue, IfOk, IfSome, MatchOption, OnOk, OnErr, Some, None};
ghost use Rattle.mm_lex.specs.Alphabet.{Name};
ghost use Rattle.proof_code.specs.declared.item.Item.{Item};
ghost use Rattle.proof_code.specs.Text.{letters_of, numbers_from};
ghost use Rattle.proof_code.specs.Writes.{is_compressed, WritesCompressed};
ghost use Rattle.proof_code.specs.Reading.{IsHeadingRead, IsHeadingWithNumbers};

use crate::letter_numbers::{check_letters, starts_with_mark, write_numbers};
use crate::listing::count_listed;
use mm_lex::{WordIter, Words};
use std::alloc::{AllocError, Global};
use std::marker::Model;

/// The largest number of labels of one proof, mandatory and listed, and the largest size of its
/// letters, the spaces among them included. More are reported as a failed allocation.
pub const MAX_LABELS_OR_LETTERS: usize = 1 << 30;

/// Reads compressed proofs, one after another. Contracts see the numbers of the last one.
#[derive(Drop)]
pub struct Reader {
    /// The numbers, followed by elements that are not used.
    buffer: Vec<u32>,
    /// How many numbers there are.
    count: usize,
}

impl Model for Reader {
    ghost use Rattle.std.specs.Prelude.{ℕ, ◌≤◌, List, length, take};

    ghost Value = { List ℕ };

    ghost view = { λ a. take a.count a.buffer.items };

    ghost invariant = { λ a. a.count ≤ length a.buffer.items };
}

/// The labels that a compressed proof lists in its parentheses: the first `count` words of `words`.
#[derive(Drop)]
pub struct Heading<'a> {
    /// The listed labels, `)` and the letters.
    pub words: WordIter<'a>,
    /// How many labels are listed.
    pub count: usize,
}

impl Reader {
    /// Returns a reader with an empty buffer. Does not allocate.
    pub fn new(alloc: Global) -> Reader
        ensures { result ≡ [] }
    {
        Reader {
            buffer: Vec::new(alloc),
            count: 0,
        }
    }

    /// Returns the numbers of the items of the last proof that was read (`ItemParts`).
    pub fn numbers(&self) -> &[u32]
        ensures { result.now ≡ self.now }
    {
        &self.buffer[..self.count]
    }

    /// Reads a compressed proof of a statement with `mandatory` mandatory hypotheses. Returns the
    /// labels that it lists, and keeps the numbers of its items; returns `None` if it writes no
    /// items, whatever the mandatory labels are.
    ///
    /// The proof writes these items only if no listed label is a mandatory one, which the caller
    /// has to test.
    ///
    /// Errors: an allocation fails, or there are more labels or letters than
    /// `MAX_LABELS_OR_LETTERS`; the numbers are then unchanged.
    /// Cost: the size of the tokens. Source: Metamath, appendix B.
    pub fn read<'a>(
        &mut self,
        tokens: &'a Words,
        mandatory: usize,
    ) -> Result<Option<Heading<'a>>, AllocError>
        requires { IsTrue (is_compressed tokens.now) }
        ensures read { IfOk result (λ found. MatchOption found
            ((labels : List Name) → length labels ≡ mandatory → (items : List Item) → ¬ WritesCompressed tokens.now labels items)
            (λ heading. IsHeadingWithNumbers tokens.now mandatory heading.words heading.count self.new)) }
        ensures same { OnErr result (self.new ≡ self.old) }
    {
        if mandatory > MAX_LABELS_OR_LETTERS {
            return Err(AllocError);
        }
        let Some((heading, kept)) = self.read_or_check(tokens, mandatory) else {
            return Ok(None);
        };
        kept?;
        Ok(Some(heading))
    }

    /// Reads a proof as `read` does, but checks it even if every allocation fails. Returns the
    /// listed labels with `Ok` if the numbers are kept, with `Err` if an allocation failed, and
    /// `None` if the proof writes no items.
    pub(crate) fn read_or_check<'a>(
        &mut self,
        tokens: &'a Words,
        mandatory: usize,
    ) -> Option<(Heading<'a>, Result<(), AllocError>)>
        requires compressed { IsTrue (is_compressed tokens.now) }
        requires few { mandatory ≤ 2 ^ 62 }
        ensures read { MatchOption result
            ((labels : List Name) → length labels ≡ mandatory → (items : List Item) → ¬ WritesCompressed tokens.now labels items)
            (λ found. IsHeadingRead tokens.now mandatory found.0 found.1 self.new) }
        ensures same { IfSome result (λ found. OnErr found.1 (self.new ≡ self.old)) }
    {
        let mut words = tokens.iter();
        let _ = words.next();
        let (count, letters) = count_listed(words.as_text())?;
        if starts_with_mark(letters) {
            return None;
        }
        let labels = mandatory + count;
        let heading = Heading { words, count };
        if make_room(&mut self.buffer, labels, letters.len()).is_err() {
            check_letters(letters, labels)?;
            return Some((heading, Err(AllocError)));
        }
        self.count = 0;
        self.count = write_numbers(letters, labels, &mut self.buffer)?;
        Some((heading, Ok(())))
    }

    /// Returns the numbers of the last proof that was read, in a buffer of their own.
    pub(crate) fn into_numbers(self) -> Vec<u32>
        ensures { result.items ≡ self }
    {
        let mut numbers = self.buffer;
        numbers.truncate(self.count);
        numbers
    }
}

/// Lengthens the buffer so that it has an element for each letter.
///
/// Errors: an allocation fails, or there are too many letters or labels.
fn make_room(buffer: &mut Vec<u32>, labels: usize, letters: usize) -> Result<(), AllocError>
    ensures room { OnOk result (letters ≤ length buffer.new.items) }
    ensures few { OnOk result (labels + letters < 2 ^ 32) }
    ensures same { OnErr result (buffer.new.items ≡ buffer.old.items) }
{
    if labels > MAX_LABELS_OR_LETTERS || letters > MAX_LABELS_OR_LETTERS {
        return Err(AllocError);
    }
    if buffer.len() < letters {
        buffer.resize(letters, 0)?;
    }
    Ok(())
}
