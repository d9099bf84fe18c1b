//! The disjoint variables at a position.
ghost use Rattle.std.specs.Prelude.{◌≡◌, ◌==◌, ◌&&◌, ◌+◌, ◌-◌, ◌<◌, ◌≤◌, ℕ, not, false, length};
ghost use Rattle.std.specs.Prelude.{sum_by, take, IfNone};
ghost use Rattle.std.specs.List.{list_any};
ghost use Rattle.names.specs.Codes.{name_at, code_of};
ghost use Rattle.scope.specs.Active.{is_variable};
ghost use Rattle.frame.specs.Below.{AllBelow};
ghost use Rattle.entries.specs.Mentions.{positions_of};
ghost use Rattle.frame.specs.LastActive.{actives, is_disj};
ghost use Rattle.frame.specs.ListsOfPairs.{AreListsOfPairs, is_numbered_pair};
ghost use Rattle.frame.specs.NumberedWork.{numbered_row};
ghost use Rattle.frame.specs.Stored.EntryMeanings.{statements_of};
ghost use Rattle.frame.specs.Stored.Stacks.{positions_with};
ghost use Rattle.frame.specs.Stored.Whole.{AreStored};

use crate::disjoints_with::DisjointsWith;
use crate::first_active::first_active;
use crate::storage::Storage;
use crate::symbol_numbers::symbol_number;
use entries::{Kind, MentionStack};
use std::marker::Model;

/// The `$d` that are active at a position.
///
/// Contracts see the earlier statements, and the names that numbers stand for.
#[derive(Drop)]
pub struct Pairs<'a> {
    /// The statements.
    pub(crate) storage: &'a Storage,
    /// The position.
    pub(crate) at: usize,
}

impl<'a> Model for Pairs<'a> {
    ghost use Rattle.std.specs.Prelude.{◌+◌, ◌≤◌, length};
    ghost use Rattle.names.specs.Codes.{AreDistinct};
    ghost use Rattle.scope.specs.Active.{before};
    ghost use Rattle.frame.specs.Parts.{Numbered};
    ghost use Rattle.frame.specs.Stored.EntryMeanings.{names_in, statements_of};
    ghost use Rattle.frame.specs.Stored.Whole.{AreStored};

    ghost Value = { Numbered };

    ghost view = { λ a. record {
      statements = before (statements_of a.storage.now) a.at;
      names = names_in a.storage.now;
    } };

    ghost invariant = { λ a. AreStored a.storage.now
        × AreDistinct (names_in a.storage.now)
        × (1 ≤ a.at)
        × (a.at ≤ length (statements_of a.storage.now) + 1) };
}

impl<'a> Pairs<'a> {
    /// Returns whether x and y are different and both occur in one active `$d`.
    ///
    /// Cost: the row of x, which is the sum of the lengths of the active `$d` that have it.
    pub fn has(&self, x: u32, y: u32) -> bool
        requires { (x < length self.now.names) × (y < length self.now.names) }
        ensures { result ≡ is_numbered_pair self.now x y }
    {
        if x == y {
            return false;
        }
        let mut disjoints = self.disjoints_with(x);
        while let Some(symbols) = disjoints.next() {
            if contains(symbols, y) {
                return true;
            }
        }
        false
    }

    /// Returns the active `$d` that have x, from the last one back.
    ///
    /// Cost: a binary search.
    pub fn disjoints_with(&self, x: u32) -> DisjointsWith<'a>
        requires { x < length self.now.names }
        ensures pairs { (y : ℕ) → y < length self.now.names
            → is_numbered_pair self.now x y ≡ (not (x == y) && list_any (λ list. list_any (λ c. y == c) list) result) }
        ensures together { AreListsOfPairs self.now result }
        ensures below { AllBelow (length self.now.names) result }
        ensures row { sum_by length result ≡ numbered_row self.now x }
    {
        DisjointsWith::new(self.storage, active_disjoints(self.storage, x, self.at))
    }

    /// Returns the same `$d`. Cost: a constant.
    #[inline(always)]
    pub fn copy(&self) -> Pairs<'a>
        ensures { result ≡ self.now }
    {
        Pairs { ..*self }
    }

    /// Returns the number of a name, if it has one. A name without a number is not a variable at
    /// the position.
    ///
    /// Cost: a look-up of the name.
    pub fn number(&self, name: &[u8]) -> Option<u32>
        ensures number { result ≡ code_of self.now.names name.now }
        ensures unnamed { IfNone result (is_variable self.now.statements name.now ≡ false) }
    {
        symbol_number(&self.storage.numbering, name)
    }

    /// Returns whether x is a variable at the position.
    ///
    /// Cost: a binary search.
    pub fn variable(&self, x: u32) -> bool
        requires { x < length self.now.names }
        ensures { result ≡ is_variable self.now.statements (name_at self.now.names x) }
    {
        let storage = self.storage;
        let mut declared = first_active(
            &storage.entries,
            &storage.ends,
            &storage.variables,
            Kind::Var,
            x,
            self.at,
        );
        declared.pop().is_some()
    }
}

/// Returns the `$d` that have a symbol and are active at `at`.
///
/// Cost: a binary search.
fn active_disjoints(storage: &Storage, code: u32, at: usize) -> MentionStack<'_>
    requires stored { AreStored storage.now }
    requires place { (1 ≤ at) × (at ≤ length (statements_of storage.now) + 1) }
    ensures { positions_of result
        ≡ positions_with storage.now.entries code (actives is_disj (take (at - 1) (statements_of storage.now))) }
{
    first_active(
        &storage.entries,
        &storage.ends,
        &storage.disjoints,
        Kind::Disj,
        code,
        at,
    )
}

/// Returns whether a symbol is in the list.
fn contains(codes: &[u32], code: u32) -> bool
    ensures { result ≡ list_any (λ c. code == c) codes.now }
{
    codes.iter().any(|c| code == *c)
}
