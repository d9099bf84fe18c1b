//! A set of symbols that is emptied in constant time.
ghost use Rattle.std.specs.Prelude.{◌≡◌, ◌==◌, ◌&&◌, ◌||◌, ℕ, not, false, OnOk};
ghost use Rattle.std.specs.List.{list_all, list_any};
ghost use Rattle.subst.specs.Stored.SymbolSets.{has_symbol};

use std::alloc::{AllocError, Global};
use std::marker::Model;

/// The stamp of a symbol that is not in the set. A `SymbolSet` counts its stamps from 1.
const NO_STAMP: u64 = 0;

/// A set of symbols. Contracts see whether it has a symbol.
///
/// A symbol is in the set if it has the current stamp, so a new stamp empties the set.
#[derive(Drop)]
pub(crate) struct SymbolSet {
    /// By the number of a symbol, the stamp with which it was last added.
    stamps: Vec<u64>,
    /// The current stamp.
    stamp: u64,
}

impl Model for SymbolSet {
    ghost use Rattle.std.specs.Prelude.{◌≤◌};
    ghost use Rattle.subst.specs.Stored.ImageTables.{AreUpTo};
    ghost use Rattle.subst.specs.Stored.SymbolSets.{StampedSymbols};

    ghost Value = { StampedSymbols };

    ghost view = { λ a. record { stamps = a.stamps.items; stamp = a.stamp } };

    ghost invariant = { λ a. (1 ≤ a.stamp) × AreUpTo a.stamp a.stamps.items };
}

impl SymbolSet {
    /// Returns an empty set. Does not allocate.
    pub(crate) fn new(alloc: Global) -> SymbolSet
        ensures { (x : ℕ) → has_symbol result x ≡ false }
    {
        SymbolSet {
            stamps: Vec::new(alloc),
            stamp: 1,
        }
    }

    /// Empties the set, in constant time. Keeps the memory.
    pub(crate) fn clear(&mut self)
        ensures { (x : ℕ) → has_symbol self.new x ≡ false }
    {
        if self.stamp < u64::MAX {
            self.stamp += 1;
        } else {
            self.stamps.clear();
            self.stamp = 1;
        }
    }

    /// Returns whether a symbol is in the set.
    #[inline(always)]
    pub(crate) fn has(&self, symbol: u32) -> bool
        ensures { result ≡ has_symbol self.now symbol }
    {
        match self.stamps.get(symbol as usize) {
            Some(stamp) => *stamp == self.stamp,
            None => false,
        }
    }

    /// Returns whether all symbols of a list are in the set. Reads the whole list.
    #[inline(always)]
    pub(crate) fn has_all(&self, list: &[u32]) -> bool
        ensures { result ≡ list_all (has_symbol self.now) list.now }
    {
        let mut all = true;
        for symbol in list {
            all &= self.has(*symbol);
        }
        all
    }

    /// Adds a symbol.
    ///
    /// Errors: an allocation fails. Cost: constant, unless the table of stamps grows.
    #[inline(always)]
    pub(crate) fn add(&mut self, symbol: u32) -> Result<(), AllocError>
        ensures { OnOk result ((x : ℕ) → has_symbol self.new x ≡ (x == symbol || has_symbol self.old x)) }
    {
        let index = symbol as usize;
        if index >= self.stamps.len() {
            self.stamps.resize(index + 1, NO_STAMP)?;
        }
        self.stamps[index] = self.stamp;
        Ok(())
    }

    /// Adds the symbols of a list.
    ///
    /// Errors: an allocation fails.
    #[inline(always)]
    pub(crate) fn add_all(&mut self, list: &[u32]) -> Result<(), AllocError>
        ensures { OnOk result
            ((x : ℕ) → has_symbol self.new x ≡ (list_any (λ c. x == c) list.now || has_symbol self.old x)) }
    {
        for symbol in list {
            self.add(*symbol)?;
        }
        Ok(())
    }

    /// Removes a symbol.
    #[inline(always)]
    pub(crate) fn remove(&mut self, symbol: u32)
        ensures { (x : ℕ) → has_symbol self.new x ≡ (not (x == symbol) && has_symbol self.old x) }
    {
        let index = symbol as usize;
        if index < self.stamps.len() {
            self.stamps[index] = NO_STAMP;
        }
    }
}
