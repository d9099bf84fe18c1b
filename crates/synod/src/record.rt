//! The kept part of a node, which survives a restart.
ghost use Rattle.std.specs.Prelude.{◌≡◌, ◌<◌, ◌≤◌, OnOk, Some, None, MatchOption, count_by, is_some, length};
ghost use Rattle.slots.specs.declared.slots.TheConstants.{SLOTS};
ghost use Rattle.slots.specs.FiniteMap.{entry_at, top_of};

use crate::ballot::Ballot;
use crate::change::{AcceptedEntry, Change};
use slots::Slots;
use std::alloc::{AllocError, Global};
use std::marker::Model;

/// The kept part of a node: the promise, the round and the accepted entries.
///
/// Source: Lamport, Paxos Made Simple, 2.5, on stable storage.
#[derive(Drop)]
pub struct Record<V> {
    promise: Ballot,
    round: u64,
    accepted: Slots<AcceptedEntry<V>>,
}

impl<V> Model for Record<V> {
    ghost use Rattle.std.specs.Prelude.{length, ◌≤◌};
    ghost use Rattle.slots.specs.declared.slots.TheConstants.{SLOTS};
    ghost use Rattle.synod.specs.Record.{RecordView};

    ghost Value = { RecordView V };

    ghost view = { λ r. record {
      kept = record { promise = r.promise; round = r.round; accepted = r.accepted.entries };
      capacity = r.accepted.capacity;
    } };

    ghost invariant = { λ r. length r.accepted.entries ≤ SLOTS };
}

impl<V: Drop> Record<V> {
    ghost use Rattle.synod.specs.Record.{new_kept, changed_by, HasCapacityFor};

    /// Creates the record of a new node. It does not allocate.
    pub fn new(alloc: Global) -> Self
        ensures { result.kept ≡ new_kept }
    {
        Record {
            promise: Ballot::zero(),
            round: 0,
            accepted: Slots::new(alloc),
        }
    }

    /// Returns the promised ballot.
    pub fn promise(&self) -> Ballot
        ensures { result ≡ self.now.kept.promise }
    {
        self.promise
    }

    /// Returns the round last begun.
    pub fn round(&self) -> u64
        ensures { result ≡ self.now.kept.round }
    {
        self.round
    }

    /// Returns the entry accepted at a slot, if there is one.
    pub fn get(&self, slot: u32) -> Option<&AcceptedEntry<V>>
        ensures { MatchOption result (entry_at self.now.kept.accepted slot ≡ None)
            (λ entry. entry_at self.now.kept.accepted slot ≡ Some entry.now) }
    {
        self.accepted.get(slot)
    }

    /// Returns one above the greatest slot with an accepted entry, or 0 if there are none.
    pub fn top(&self) -> u32
        ensures top { result ≡ top_of self.now.kept.accepted }
        ensures within { result ≤ SLOTS }
    {
        self.accepted.top()
    }

    /// Returns at how many slots an entry is accepted.
    pub fn accepted_count(&self) -> u32
        ensures { result ≡ count_by is_some self.now.kept.accepted }
    {
        self.accepted.count()
    }

    /// Reserves capacity for an entry at a slot. The kept part is unchanged.
    ///
    /// Errors: an allocation fails.
    pub fn reserve(&mut self, slot: u32) -> Result<(), AllocError>
        requires { slot < SLOTS }
        ensures ok { OnOk result (slot < self.new.capacity) }
        ensures kept { self.new.kept ≡ self.old.kept }
        ensures capacity { self.old.capacity ≤ self.new.capacity }
    {
        self.accepted.room(slot)
    }

    /// Applies a change, if there is one. It does not allocate.
    pub fn apply_change(&mut self, change: Option<Change<V>>)
        requires { HasCapacityFor self.old.capacity change }
        ensures { self.new.kept ≡ changed_by self.old.kept change }
    {
        match change {
            Some(Change::Round(round)) => self.round = round,
            Some(Change::Promise(ballot)) => self.promise = ballot,
            Some(Change::Entry { slot, entry }) => {
                self.promise = entry.ballot;
                self.accepted.put(slot, entry);
            }
            None => {}
        }
    }
}
