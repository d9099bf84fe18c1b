//! A stack of distinct numbers that finds the index of a number in constant time.
ghost use Rattle.std.specs.Prelude.{◌≡◌, ◌≢◌, ℕ, [], ◌∷◌, ◌++◌, ◌==◌, false, take, length};
ghost use Rattle.std.specs.Prelude.{slice_get, is_some, Some, IfOk, IfSome, OnOk, OnErr};
ghost use Rattle.std.specs.List.{list_any};

use entries::give_back;
use std::alloc::{AllocError, Global};
use std::marker::Model;

/// A stack of distinct numbers. Contracts see the list.
///
/// `indexes` has an index for each number. That index is valid only if the number is there in
/// `numbers`, so a truncation of the stack leaves `indexes` as it is.
#[derive(Drop)]
pub struct Stack {
    numbers: Vec<u32>,
    indexes: Vec<usize>,
}

impl Model for Stack {
    ghost use Rattle.std.specs.Prelude.{ℕ, List, ◌≡◌, ◌<◌, length, slice_get, Some};

    ghost Value = { List ℕ };

    ghost view = { λ a. a.numbers.items };

    ghost invariant = { λ a. (k n : ℕ) → slice_get a.numbers.items k ≡ Some n → slice_get a.indexes.items n ≡ Some k };
}

impl Stack {
    /// Returns an empty stack.
    pub fn new(alloc: Global) -> Stack
        ensures { result ≡ [] }
    {
        Stack {
            numbers: Vec::new(alloc),
            indexes: Vec::new(alloc),
        }
    }

    /// Returns an equal stack.
    pub(crate) fn copy(&self, alloc: Global) -> Result<Stack, AllocError>
        ensures { IfOk result (λ stack. stack ≡ self.now) }
    {
        let numbers = Vec::from_slice(alloc, self.numbers.as_slice())?;
        let indexes = Vec::from_slice(alloc, self.indexes.as_slice())?;
        Ok(Stack { numbers, indexes })
    }

    /// Returns how many numbers there are.
    pub fn len(&self) -> usize
        ensures { result ≡ length self.now }
    {
        self.numbers.len()
    }

    /// Returns the numbers in order.
    pub fn as_slice(&self) -> &[u32]
        ensures { result.now ≡ self.now }
    {
        self.numbers.as_slice()
    }

    /// Returns the index of a number, or `None` if it is not on the stack. Cost: constant.
    pub fn index_of(&self, number: u32) -> Option<usize>
        ensures found { IfSome result (λ k. slice_get self.now k ≡ Some number) }
        ensures member { is_some result ≡ list_any (λ n. n == number) self.now }
    {
        if self.indexes.len() <= number as usize {
            return None;
        }
        let at = self.indexes[number as usize];
        if self.numbers.len() <= at {
            return None;
        }
        let there = self.numbers[at];
        if there == number { Some(at) } else { None }
    }

    /// Pushes a number that is not on the stack.
    ///
    /// Errors: an allocation fails; the stack is then unchanged. Cost: amortized, a constant; for a
    /// number greater than all that were ever pushed, its difference from the greatest of them.
    pub fn push(&mut self, number: u32) -> Result<(), AllocError>
        requires { list_any (λ n. n == number) self.old ≡ false }
        ensures ok { OnOk result (self.new ≡ self.old ++ number ∷ []) }
        ensures err { OnErr result (self.new ≡ self.old) }
    {
        let at = self.numbers.len();
        record_index(&mut self.indexes, number, at)?;
        self.numbers.push(number)?;
        Ok(())
    }

    /// Truncates to the first `len` numbers.
    pub fn truncate(&mut self, len: usize)
        ensures { self.new ≡ take len self.old }
    {
        self.numbers.truncate(len);
    }

    /// Frees the unused capacity of `numbers`, as `entries::give_back` does.
    pub fn shrink(&mut self)
        ensures { self.new ≡ self.old }
    {
        give_back(&mut self.numbers);
    }
}

/// Records the index of a number.
fn record_index(indexes: &mut Vec<usize>, number: u32, index: usize) -> Result<(), AllocError>
    ensures recorded { OnOk result (slice_get indexes.new.items number ≡ Some index) }
    ensures others { (n k : ℕ) → n ≢ number → slice_get indexes.old.items n ≡ Some k
        → slice_get indexes.new.items n ≡ Some k }
{
    if indexes.len() <= number as usize {
        indexes.resize(number as usize + 1, 0)?;
    }
    indexes[number as usize] = index;
    Ok(())
}
