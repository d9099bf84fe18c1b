//! The state of an entry, and the list of verdicts in the order of the log. Only contracts see that
//! list.
ghost use Rattle.std.specs.Prelude.{◌≡◌, ◌++◌, ◌∷◌, [], List};
ghost use Rattle.std.specs.Borrow.{ftrue};
ghost use Rattle.library.specs.LibraryOf.{EntryVerdict};
ghost use Rattle.library.specs.LibraryState.{verdict_of};

use crate::verdict::Cause;
use std::marker::Model;

/// The state of an entry whose judging has begun.
#[derive(Clone, Copy, Drop)]
pub enum EntryState {
    /// It is undecided: its judging is under way, or an allocation failed during it.
    Undecided,
    /// It was added, or refused for the cause.
    Decided(Option<Cause>),
}

/// The author, the number and the outcome of an entry that is decided: the cause if it was refused,
/// `None` if it was added.
#[derive(Drop)]
pub struct DecidedEntry {
    pub author: u64,
    pub serial: u64,
    pub cause: Option<Cause>,
}

/// The verdicts so far, in the order of the log. Its size is zero: only contracts see the entries.
#[derive(Drop)]
pub struct DecidedEntries {
    pub ghost entries: { List EntryVerdict },
}

impl Model for DecidedEntries {
    ghost also_owns = { λ _. ftrue };
}

// It owns nothing.
unsafe impl Send for DecidedEntries {}

impl DecidedEntries {
    /// Returns the empty list of verdicts.
    pub fn none() -> DecidedEntries
        ensures { result.entries ≡ [] }
    {
        DecidedEntries {}
    }

    /// Returns the verdicts with one more appended.
    pub fn after(_before: &DecidedEntries, _last: &DecidedEntry) -> DecidedEntries
        ensures { result.entries ≡ _before.now.entries
            ++ record { author = _last.now.author; serial = _last.now.serial; verdict = verdict_of _last.now.cause } ∷ [] }
    {
        DecidedEntries {}
    }
}
