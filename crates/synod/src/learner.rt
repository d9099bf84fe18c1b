//! The learner: the votes that it has counted, and the values that it has learned.
ghost use Rattle.std.specs.Prelude.{◌≡◌, ◌<◌, ◌≤◌, ℕ, OnOk, Option, Some, None, MatchOption, false};
ghost use Rattle.std.specs.Prelude.{length, slice_index_or};
ghost use Rattle.slots.specs.declared.slots.TheConstants.{SLOTS};
ghost use Rattle.slots.specs.FiniteMap.{entry_at, put_at, front_of, top_of};

use crate::ballot::Ballot;
use crate::other_tallies::OtherTallies;
use crate::tally::Tally;
use crate::weights::MAX_NODES;
use slots::Slots;
use std::alloc::{AllocError, Global};
use std::marker::Model;

/// The change that a step makes to the learner.
#[derive(Drop)]
pub enum LearnerUpdate<V> {
    /// A vote is counted.
    Count {
        slot: u32,
        ballot: Ballot,
        node: u8,
    },
    /// A vote that completes a quorum is counted: the value is chosen, and it is learned here.
    CountAndLearn {
        slot: u32,
        ballot: Ballot,
        node: u8,
        value: Option<V>,
    },
    /// A chosen value arrived in a Told.
    Learn {
        slot: u32,
        value: Option<V>,
    },
}

/// The learner's part of a node: the tally of the first ballot counted at each slot, those of other
/// ballots, and the learned values.
#[derive(Drop)]
pub struct Learner<V> {
    first_tallies: Slots<Tally>,
    other_tallies: OtherTallies,
    learned: Slots<Option<V>>,
}

impl<V> Model for Learner<V> {
    ghost use Rattle.synod.specs.Core.{LearnerView};
    ghost use Rattle.synod.specs.Stored.OtherTallies.{other_tallies_at, tallies_from, IsLearner};

    ghost Value = { LearnerView V };

    ghost view = { λ l. record {
      state = record { tallies = tallies_from 0 l.first_tallies.entries (other_tallies_at l.other_tallies.votes); learned = l.learned.entries };
      tallies_capacity = l.first_tallies.capacity;
      other_tallies_capacity = l.other_tallies.capacity;
      learned_capacity = l.learned.capacity;
    } };

    ghost invariant = { λ l. IsLearner l.first_tallies.entries (other_tallies_at l.other_tallies.votes) l.learned.entries };
}

impl<V: Drop> Learner<V> {
    ghost use Rattle.std.specs.Prelude.{[]};
    ghost use Rattle.synod.specs.Learner.{has_voter, counted};
    ghost use Rattle.synod.specs.Updates.{learner_after, CanCount, CanUpdateLearner};

    /// Creates a learner without votes or values. It does not allocate.
    pub(crate) fn new(alloc: Global) -> Self
        ensures tallies { result.state.tallies ≡ [] }
        ensures learned { result.state.learned ≡ [] }
    {
        Learner {
            first_tallies: Slots::new(alloc),
            other_tallies: OtherTallies::new(alloc),
            learned: Slots::new(alloc),
        }
    }

    /// Returns the value learned at a slot, if there is one.
    pub(crate) fn learned(&self, slot: u32) -> Option<&Option<V>>
        ensures { MatchOption result (entry_at self.now.state.learned slot ≡ None)
            (λ value. entry_at self.now.state.learned slot ≡ Some value.now) }
    {
        self.learned.get(slot)
    }

    /// Returns the first gap: the least slot without a learned value, which is the length of the
    /// log.
    pub(crate) fn first_gap(&self) -> u32
        ensures front { result ≡ front_of self.now.state.learned }
        ensures within { result ≤ SLOTS }
    {
        self.learned.front()
    }

    /// Returns one above the greatest slot with a learned value, or 0 if there are none.
    pub(crate) fn top(&self) -> u32
        ensures { result ≡ top_of self.now.state.learned }
    {
        self.learned.top()
    }

    /// Returns the first gap once a value is learned at `slot`.
    pub(crate) fn first_gap_with(&self, slot: u32) -> u32
        requires { slot < SLOTS }
        ensures front { (value : Option V) → front_of (put_at self.now.state.learned slot value) ≡ result }
        ensures within { result ≤ SLOTS }
    {
        self.learned.front_with(slot)
    }

    /// Returns the voters at a slot under a ballot once `node` is counted.
    pub(crate) fn voters_with(&self, slot: u32, ballot: Ballot, node: u8) -> [bool; MAX_NODES]
        requires { node < MAX_NODES }
        ensures { (k : ℕ) → slice_index_or result k false
            ≡ has_voter (counted self.now.state.tallies slot ballot node) slot ballot k }
    {
        match self.first_tallies.get(slot) {
            Some(first) => {
                if first.ballot.is_same(ballot) {
                    first.with_vote(node).voters
                } else {
                    self.other_tallies.voters_with(slot, ballot, node)
                }
            }
            None => Tally::of_vote(ballot, node).voters,
        }
    }

    /// Reserves capacity for a vote and for a value at a slot. Votes and values are unchanged.
    pub(crate) fn reserve(&mut self, slot: u32) -> Result<(), AllocError>
        requires { slot < SLOTS }
        ensures tallies { OnOk result (slot < self.new.tallies_capacity) }
        ensures other_tallies { OnOk result (0 < self.new.other_tallies_capacity) }
        ensures learned { OnOk result (slot < self.new.learned_capacity) }
        ensures state { self.new.state ≡ self.old.state }
        ensures tallies_capacity { self.old.tallies_capacity ≤ self.new.tallies_capacity }
        ensures other_tallies_capacity { self.old.other_tallies_capacity ≤ self.new.other_tallies_capacity }
        ensures learned_capacity { self.old.learned_capacity ≤ self.new.learned_capacity }
    {
        self.first_tallies.room(slot)?;
        self.other_tallies.reserve()?;
        self.learned.room(slot)
    }

    /// Counts a vote. It does not allocate.
    ///
    /// Cost: a constant number of look-ups, however many ballots have votes at the slot. The first
    /// vote at the first slot without votes scans on to the next such slot.
    fn count_vote(&mut self, slot: u32, ballot: Ballot, node: u8)
        requires { CanCount self.old slot node }
        ensures tallies { self.new.state.tallies ≡ counted self.old.state.tallies slot ballot node }
        ensures learned { self.new.state.learned ≡ self.old.state.learned }
        ensures capacity { self.new.learned_capacity ≡ self.old.learned_capacity }
    {
        let Some(first) = self.first_tallies.get(slot) else {
            self.first_tallies.put(slot, Tally::of_vote(ballot, node));
            return;
        };
        if first.ballot.is_same(ballot) {
            let first = first.with_vote(node);
            self.first_tallies.put(slot, first);
        } else {
            self.other_tallies.count_vote(slot, ballot, node);
        }
    }

    /// Applies an update, if there is one. It does not allocate.
    pub(crate) fn apply_update(&mut self, update: Option<LearnerUpdate<V>>)
        requires { CanUpdateLearner self.old update }
        ensures { self.new.state ≡ learner_after self.old.state update }
    {
        match update {
            Some(LearnerUpdate::Count { slot, ballot, node }) => self.count_vote(
                slot, ballot, node,
            ),
            Some(
                LearnerUpdate::CountAndLearn {
                    slot,
                    ballot,
                    node,
                    value,
                },
            ) => {
                self.count_vote(slot, ballot, node);
                self.learned.put(slot, value);
            }
            Some(LearnerUpdate::Learn { slot, value }) => {
                self.learned.put(slot, value);
            }
            None => {}
        }
    }
}
