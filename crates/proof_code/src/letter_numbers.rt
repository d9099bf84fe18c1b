//! Reads the numbers that the letters of a compressed proof write.
//!
//! A processor cannot predict the next letter, so no branch depends on which it is: a table has the
//! numbers by which each byte changes the value of the digits before it, and the only test for each
//! byte is whether a value is over the limit.
ghost use Rattle.std.specs.Prelude.{◌≡◌, if◌then◌else◌, ◌+◌, ◌*◌, ◌^◌, ◌<◌, ◌≤◌, ◌∷◌, ℕ, List};
ghost use Rattle.std.specs.Prelude.{length, take, max, None, Some, IfNone, IfSome, MatchOption};
ghost use Rattle.proof_code.specs.Text.{letters_of, numbers_from, starts_with_mark};
ghost use Rattle.proof_code.specs.Reading.{IsByteEffect, IsNextRead, digits_after, ended};
ghost use Rattle.proof_code.specs.Reading.{ends_number, limit_after, value_after};

use crate::byte_step::STEPS;

/// The bits of a number that is stored.
const NUMBER_BITS: usize = 0xffff_ffff;

/// Returns the value of the digits with a byte after them. It is over every limit if the byte is
/// not allowed there.
#[inline(always)]
fn value_after(digits: usize, byte: u8) -> usize
    requires { 20 * digits + 26 < 2 ^ 64 }
    ensures { result ≡ value_after digits byte }
{
    let step = &STEPS[usize::from(byte)];
    digits.wrapping_mul(step.factor) + step.added
}

/// Returns how many numbers a byte ends: 1 for a letter A to T and for a mark, else 0.
#[inline(always)]
fn count_ended(byte: u8) -> usize
    ensures { result ≡ if ends_number byte then 1 else 0 }
{
    STEPS[usize::from(byte)].ends
}

/// The state of reading between two bytes of the letters.
#[derive(Clone, Copy)]
struct LetterState {
    /// The largest number that is valid here.
    limit: usize,
    /// The value of the letters U to Y that were read of this word, as the digits 1 to 5 in base 5;
    /// 0 between words.
    digits: usize,
}

impl LetterState {
    /// Tests `value`, that of the digits with the byte after them. Returns `None` if letters that
    /// go on with this byte write no list of numbers, whatever follows it, else `Some`.
    ///
    /// A word with digits over `digits_limit` has a number over the limit, however it ends.
    #[inline(always)]
    fn check(&self, byte: u8, value: usize, digits_limit: usize) -> Option<()>
        requires value { value ≡ value_after self.now.digits byte }
        requires digits_in_range { self.now.digits ≤ digits_limit }
        requires digits_limit { self.now.limit < 20 * digits_limit + 20 }
        requires small { 20 * digits_limit + 26 < 2 ^ 64 }
        requires no_overflow { self.now.limit + digits_limit < 2 ^ 64 }
        ensures some { IfSome result
            (λ _. IsByteEffect self.now.limit self.now.digits byte (ended byte value) (limit_after self.now.limit byte)
            (digits_after byte value)) }
        ensures none { IfNone result
            ((text : List ℕ) → numbers_from self.now.limit self.now.digits (letters_of (byte ∷ text)) ≡ None) }
        ensures within { IfSome result (λ _. value ≤ max self.now.limit digits_limit) }
        ensures digits_in_range { IfSome result (λ _. digits_after byte value ≤ digits_limit) }
    {
        let bound = if count_ended(byte) == 1 {
            self.limit
        } else {
            digits_limit
        };
        if value > bound { None } else { Some(()) }
    }

    /// Advances past a byte. `value` is that of the digits with the byte after them.
    #[inline(always)]
    fn advance(&mut self, byte: u8, value: usize)
        requires { self.old.limit + 1 < 2 ^ 64 }
        ensures limit { self.new.limit ≡ limit_after self.old.limit byte }
        ensures digits { self.new.digits ≡ digits_after byte value }
        ensures within { self.new.limit ≤ self.old.limit + 1 }
    {
        let step = &STEPS[usize::from(byte)];
        self.digits = value & step.mask;
        self.limit += step.marks;
    }

    /// Advances past a byte, and stores the value of the digits with it after the first `count`
    /// numbers. Returns the new count of numbers, or `None` if letters that go on with this byte
    /// write no list of numbers, whatever follows it.
    ///
    /// The value is stored before it is tested, since the compiler then adds to the count with one
    /// instruction instead of two.
    #[inline(always)]
    fn write_next(&mut self, byte: u8, count: usize, numbers: &mut [u32]) -> Option<usize>
        requires digits_in_range { self.old.digits ≤ self.old.limit }
        requires small { self.old.limit + 1 < 2 ^ 32 }
        requires room { count < length numbers.old }
        ensures some { IfSome result
            (λ next. IsNextRead (take count numbers.old) self.old.limit self.old.digits byte
            (take next numbers.new) self.new.limit self.new.digits) }
        ensures none { IfNone result
            ((text : List ℕ) → numbers_from self.old.limit self.old.digits (letters_of (byte ∷ text)) ≡ None) }
        ensures within { IfSome result (λ next. next ≤ count + 1) }
        ensures limit { self.new.limit ≤ self.old.limit + 1 }
        ensures digits_in_range { IfSome result (λ _. self.new.digits ≤ self.new.limit) }
    {
        let value = value_after(self.digits, byte);
        numbers[count] = (value & NUMBER_BITS) as u32;
        self.check(byte, value, self.limit)?;
        self.advance(byte, value);
        Some(count + count_ended(byte))
    }
}

/// Stores the numbers that the letters of a text write for a proof with `labels` labels. Returns
/// the count of numbers, or `None` if the letters write no list of numbers. Spaces may be anywhere
/// among the letters.
///
/// For each byte it stores the value of the word, and overwrites it unless the byte ends a number.
/// It reads four bytes in each turn of the loop, which share the instructions of the loop itself.
#[inline(never)]
pub(crate) fn write_numbers(text: &[u8], labels: usize, numbers: &mut [u32]) -> Option<usize>
    requires small { labels + length text.now < 2 ^ 32 }
    requires room { length text.now ≤ length numbers.old }
    ensures some { IfSome result
        (λ count. numbers_from labels 0 (letters_of text.now) ≡ Some (take count numbers.new)) }
    ensures within { IfSome result (λ count. count ≤ length text.now) }
    ensures none { IfNone result (numbers_from labels 0 (letters_of text.now) ≡ None) }
{
    let mut state = LetterState {
        limit: labels,
        digits: 0,
    };
    let mut count = 0;
    let fours = text.len() / 4;
    for four in 0..fours {
        let at = 4 * four;
        count = state.write_next(text[at], count, numbers)?;
        count = state.write_next(text[at + 1], count, numbers)?;
        count = state.write_next(text[at + 2], count, numbers)?;
        count = state.write_next(text[at + 3], count, numbers)?;
    }
    for &byte in &text[4 * fours..] {
        count = state.write_next(byte, count, numbers)?;
    }
    if state.digits == 0 { Some(count) } else { None }
}

/// Returns `Some` if the letters write a list of numbers, else `None`. Does not store them.
pub(crate) fn check_letters(text: &[u8], labels: usize) -> Option<()>
    requires { labels + length text.now < 3 * 2 ^ 62 }
    ensures { MatchOption result (numbers_from labels 0 (letters_of text.now) ≡ None)
        (λ _. (numbers : List ℕ) × (numbers_from labels 0 (letters_of text.now) ≡ Some numbers)) }
{
    let digits_limit = (labels + text.len()) / 20;
    let mut state = LetterState {
        limit: labels,
        digits: 0,
    };
    for &byte in text {
        let value = value_after(state.digits, byte);
        state.check(byte, value, digits_limit)?;
        state.advance(byte, value);
    }
    if state.digits == 0 { Some(()) } else { None }
}

/// Returns whether the letters begin with a mark.
pub(crate) fn starts_with_mark(letters: &[u8]) -> bool
    ensures { result ≡ starts_with_mark letters.now }
{
    matches!(letters, [b'Z', ..])
}
