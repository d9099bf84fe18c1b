//! The votes at a slot under ballots other than the one first counted there, by slot and ballot.
ghost use Rattle.std.specs.Prelude.{◌≡◌, ◌<◌, ◌≤◌, ◌≢◌, ℕ, [], OnOk};
ghost use Rattle.synod.specs.Learner.{counted_in, with_voter};
ghost use Rattle.synod.specs.Stored.OtherTallies.{other_tallies_at, voters_among};

use crate::ballot::Ballot;
use crate::tally::with_mark;
use crate::weights::MAX_NODES;
use indexmap::IndexMap;
use std::alloc::{AllocError, Global};
use std::marker::Model;

/// The votes at slots where another ballot was counted first, in the order in which their ballots
/// were first counted.
///
/// A table by slot and ballot: counting a vote costs a constant number of look-ups, however many
/// ballots have votes at the slot.
#[derive(Drop)]
pub struct OtherTallies {
    voters: IndexMap<(u32, Ballot), [bool; MAX_NODES]>,
}

impl Model for OtherTallies {
    ghost use Rattle.indexmap.specs.IndexMap.{spare};
    ghost use Rattle.synod.specs.Core.{OtherTalliesView};

    ghost Value = { OtherTalliesView };

    ghost view = { λ t. record { votes = t.voters.entries; capacity = spare t.voters } };
}

impl OtherTallies {
    /// Creates a table without votes. It does not allocate.
    pub(crate) fn new(alloc: Global) -> Self
        ensures { result.votes ≡ [] }
    {
        OtherTallies {
            voters: IndexMap::new(alloc),
        }
    }

    /// Reserves capacity for one more tally. The votes are unchanged.
    pub(crate) fn reserve(&mut self) -> Result<(), AllocError>
        ensures ok { OnOk result (0 < self.new.capacity) }
        ensures votes { self.new.votes ≡ self.old.votes }
        ensures capacity { self.old.capacity ≤ self.new.capacity }
    {
        self.voters.reserve(1)
    }

    /// Returns the voters in the table at a slot under a ballot, and `node`.
    pub(crate) fn voters_with(&self, slot: u32, ballot: Ballot, node: u8) -> [bool; MAX_NODES]
        requires { node < MAX_NODES }
        ensures { result ≡ with_voter (voters_among self.now.votes slot ballot) node }
    {
        let voters = match self.voters.get(&(slot, ballot)) {
            Some(voters) => *voters,
            None => [false; MAX_NODES],
        };
        with_mark(voters, node)
    }

    /// Counts a vote. It does not allocate.
    pub(crate) fn count_vote(&mut self, slot: u32, ballot: Ballot, node: u8)
        requires node { node < MAX_NODES }
        requires capacity { 0 < self.old.capacity }
        ensures here { other_tallies_at self.new.votes slot
            ≡ counted_in (other_tallies_at self.old.votes slot) ballot node }
        ensures others { (s : ℕ) → s ≢ slot → other_tallies_at self.new.votes s ≡ other_tallies_at self.old.votes s }
    {
        let voters = self.voters_with(slot, ballot, node);
        let _ = self.voters.insert((slot, ballot), voters);
    }
}
