//! The active `$d` that have one variable.
ghost use Rattle.std.specs.Prelude.{◌≡◌, ◌∷◌, [], map, IfNone, IfSome};
ghost use Rattle.entries.specs.Mentions.{positions_of};
ghost use Rattle.frame.specs.LastActive.{is_disj};
ghost use Rattle.frame.specs.Stored.AssertionParts.{symbols_at};
ghost use Rattle.frame.specs.Stored.EntryMeanings.{statements_of};
ghost use Rattle.frame.specs.Stored.Stacks.{AreOfKind};
ghost use Rattle.frame.specs.Stored.Whole.{AreStored};

use crate::storage::Storage;
use entries::MentionStack;
use std::marker::Model;

/// The active `$d` that have a variable, from the last one back. Contracts see the list of symbols
/// of each.
#[derive(Drop)]
pub struct DisjointsWith<'a> {
    storage: &'a Storage,
    /// The `$d` that are left.
    stack: MentionStack<'a>,
}

impl<'a> Model for DisjointsWith<'a> {
    ghost use Rattle.std.specs.Prelude.{ℕ, List, map};
    ghost use Rattle.entries.specs.Mentions.{positions_of};
    ghost use Rattle.frame.specs.LastActive.{is_disj};
    ghost use Rattle.frame.specs.Stored.AssertionParts.{symbols_at};
    ghost use Rattle.frame.specs.Stored.EntryMeanings.{statements_of};
    ghost use Rattle.frame.specs.Stored.Stacks.{AreOfKind};
    ghost use Rattle.frame.specs.Stored.Whole.{AreStored};

    ghost Value = { List (List ℕ) };

    ghost view = { λ a. map (symbols_at a.storage.now.entries) (positions_of a.stack) };

    ghost invariant = { λ a. AreStored a.storage.now × AreOfKind is_disj (statements_of a.storage.now) (positions_of a.stack) };
}

impl<'a> DisjointsWith<'a> {
    /// Returns the `$d` at the positions of these mentions.
    pub(crate) fn new(storage: &'a Storage, stack: MentionStack<'a>) -> DisjointsWith<'a>
        requires stored { AreStored storage.now }
        requires disjoints { AreOfKind is_disj (statements_of storage.now) (positions_of stack) }
        ensures { result ≡ map (symbols_at storage.now.entries) (positions_of stack.entry) }
    {
        DisjointsWith { storage, stack }
    }

    /// Removes the last `$d` that is left and returns its symbols, or returns `None` if none is
    /// left.
    ///
    /// Cost: three look-ups.
    pub fn next(&mut self) -> Option<&'a [u32]>
        ensures some { IfSome result (λ list. self.old ≡ list.now ∷ self.new) }
        ensures none { IfNone result (self.old ≡ []) }
    {
        let at = self.stack.pop()?;
        Some(self.storage.entries.entry(at as usize - 1).symbols)
    }
}
