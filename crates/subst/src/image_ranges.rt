//! Images that are ranges of a buffer, by the number of their symbol.
ghost use Rattle.std.specs.Prelude.{◌≡◌, ℕ, ◌<◌, ◌≤◌, ◌++◌, [], ◌==◌, ◌^◌, nat_eq, if◌then◌else◌};
ghost use Rattle.std.specs.Prelude.{List, length, replicate, slice_set, Some, OnOk, OnErr};
ghost use Rattle.std.specs.Map.{lookup};
ghost use Rattle.subst.specs.declared.symbol_range.SymbolRange.{SymbolRange};

use crate::symbol_range::SymbolRange;
use std::alloc::{AllocError, Global};
use std::marker::Model;

/// The round of a symbol whose image was never set. `ImageRanges` counts rounds from 1.
const NO_ROUND: u32 = 0;

/// The range of a symbol that has no image.
const NO_RANGE: SymbolRange = SymbolRange { start: 0, end: 0 };

/// A table that grows for an index gets twice that length and this many more entries, so that it
/// seldom grows again.
const SPARE: usize = 1024;

/// A read-only view of the lists of an `ImageRanges`, which a loop keeps in registers.
#[derive(Drop)]
pub(crate) struct ImageTable<'a> {
    rounds: &'a [u32],
    ranges: &'a [SymbolRange],
    round: u32,
}

impl<'a> Model for ImageTable<'a> {
    ghost use Rattle.std.specs.Prelude.{ℕ, ◌≤◌, List, length};
    ghost use Rattle.subst.specs.declared.symbol_range.SymbolRange.{SymbolRange};
    ghost use Rattle.subst.specs.Stored.ImageTables.{images_in_round};

    ghost Value = { List (ℕ × SymbolRange) };

    ghost view = { λ a. images_in_round a.round 0 a.rounds.now a.ranges.now };

    ghost invariant = { λ a. length a.rounds.now ≤ length a.ranges.now };
}

impl<'a> ImageTable<'a> {
    /// Returns the range of a symbol's image, if it has one.
    #[inline(always)]
    pub(crate) fn get(&self, symbol: u32) -> Option<SymbolRange>
        ensures { result ≡ lookup (nat_eq symbol) self.now }
    {
        match self.rounds.get(symbol as usize) {
            Some(round) if *round == self.round => Some(self.ranges[symbol as usize]),
            _ => None,
        }
    }
}

/// A table of the images of symbols, each a range of a buffer that the table does not own.
/// Contracts see the symbols with their ranges.
///
/// Removing all images begins a new round: an image counts only if it was set in the current round.
/// Rounds and ranges are two lists, since a look-up of a symbol without an image, such as a
/// constant, needs the round alone.
///
/// Cost: finding an image and removing all take constant time; so does setting one, unless the
/// table grows. The table is about twice as long as the greatest symbol number that was set.
#[derive(Drop)]
pub struct ImageRanges {
    /// The round in which the image of a symbol was set, by its number.
    rounds: Vec<u32>,
    /// The range of the image of a symbol, by its number.
    ranges: Vec<SymbolRange>,
    /// The current round.
    round: u32,
}

impl Model for ImageRanges {
    ghost use Rattle.std.specs.Prelude.{ℕ, ◌≤◌, List, length};
    ghost use Rattle.subst.specs.Stored.ImageTables.{AreUpTo, images_in_round};
    ghost use Rattle.subst.specs.declared.symbol_range.SymbolRange.{SymbolRange};

    ghost Value = { List (ℕ × SymbolRange) };

    ghost view = { λ a. images_in_round a.round 0 a.rounds.items a.ranges.items };

    ghost invariant = { λ a. (1 ≤ a.round) × AreUpTo a.round a.rounds.items × (length a.rounds.items ≤ length a.ranges.items) };
}

impl ImageRanges {
    /// Returns a table without images. Does not allocate.
    pub fn new(alloc: Global) -> ImageRanges
        ensures { result ≡ [] }
    {
        ImageRanges {
            rounds: Vec::new(alloc),
            ranges: Vec::new(alloc),
            round: 1,
        }
    }

    /// Removes all images, in constant time. Keeps the memory.
    pub fn clear(&mut self)
        ensures { self.new ≡ [] }
    {
        if self.round < u32::MAX {
            self.round += 1;
        } else {
            self.rounds.clear();
            self.round = 1;
        }
    }

    /// Sets the range of a symbol's image, and replaces an earlier one.
    ///
    /// Errors: an allocation fails; all images are unchanged. Cost: constant; a copy of the table
    /// if it has to grow.
    #[inline(always)]
    pub fn set(&mut self, symbol: u32, range: SymbolRange) -> Result<(), AllocError>
        ensures ok { OnOk result
            ((x : ℕ) → lookup (nat_eq x) self.new ≡ (if x == symbol then Some range else lookup (nat_eq x) self.old)) }
        ensures same { OnErr result (self.new ≡ self.old) }
    {
        let index = symbol as usize;
        if index >= self.rounds.len() {
            widen(&mut self.rounds, &mut self.ranges, index)?;
        }
        put(&mut self.rounds, &mut self.ranges, index, self.round, range);
        Ok(())
    }

    /// Returns the range of a symbol's image, if it has one.
    #[inline(always)]
    pub fn get(&self, symbol: u32) -> Option<SymbolRange>
        ensures { result ≡ lookup (nat_eq symbol) self.now }
    {
        self.table().get(symbol)
    }

    /// Returns a read-only view of the lists.
    #[inline(always)]
    pub(crate) fn table(&self) -> ImageTable<'_>
        ensures { result ≡ self.now }
    {
        ImageTable {
            rounds: &self.rounds,
            ranges: &self.ranges,
            round: self.round,
        }
    }
}

/// Writes the round and the range of an image at an index.
#[inline(always)]
fn put(
    rounds: &mut Vec<u32>,
    ranges: &mut Vec<SymbolRange>,
    index: usize,
    round: u32,
    range: SymbolRange,
)
    requires rounds { index < length rounds.old.items }
    requires ranges { index < length ranges.old.items }
    ensures rounds { rounds.new.items ≡ slice_set rounds.old.items index round }
    ensures ranges { ranges.new.items ≡ slice_set ranges.old.items index range }
{
    rounds[index] = round;
    ranges[index] = range;
}

/// Grows both lists to about twice an index.
///
/// Errors: an allocation fails; the rounds are unchanged.
#[cold]
#[inline(never)]
fn widen(
    rounds: &mut Vec<u32>,
    ranges: &mut Vec<SymbolRange>,
    index: usize,
) -> Result<(), AllocError>
    requires index { (length rounds.old.items ≤ index) × (index < 2 ^ 32) }
    requires ranges { length rounds.old.items ≤ length ranges.old.items }
    ensures ranges { (more : List SymbolRange) × (ranges.new.items ≡ ranges.old.items ++ more) }
    ensures ok { OnOk result ((more : ℕ) × (rounds.new.items ≡ rounds.old.items ++ replicate more 0)) }
    ensures there { OnOk result
        ((index < length rounds.new.items) × (length rounds.new.items ≤ length ranges.new.items)) }
    ensures err { OnErr result (rounds.new.items ≡ rounds.old.items) }
{
    let count = 2 * index + SPARE;
    if ranges.len() < count {
        ranges.resize(count, NO_RANGE)?;
    }
    rounds.resize(count, NO_ROUND)?;
    Ok(())
}
