//! Stages the steps of an acceptor.
ghost use Rattle.std.specs.Prelude.{◌≡◌, ◌<◌, IfOk, length};
ghost use Rattle.slots.specs.declared.slots.TheConstants.{SLOTS};

use crate::ballot::Ballot;
use crate::change::{AcceptedEntry, Change};
use crate::node::NodeCore;
use crate::packet::{Body, Packet};
use crate::posts::{Broadcast, broadcast_posts};
use crate::promise::promise_posts;
use crate::ready::{Ready, StagedUpdates};
use crate::value::{Value, copy_value};
use std::alloc::AllocError;

impl<V: Value> NodeCore<V> {
    ghost use Rattle.synod.specs.Acceptor.{sends_nack, on_prepare, on_accept, accepts_value};
    ghost use Rattle.synod.specs.Step.{PreservesInvariant};
    ghost use Rattle.synod.specs.Capacity.{KeepsCapacity};
    ghost use Rattle.synod.specs.Ready.{IsReadyFor};

    /// Stages a Nack to the proposer `from`, which says that `ballot` is refused and which ballot
    /// this node has promised.
    fn stage_nack_to(&self, from: u8, ballot: Ballot) -> Result<Ready<V>, AllocError>
        ensures { IfOk result (IsReadyFor self.now (sends_nack self.now.node from ballot)) }
    {
        let mut posts = Vec::new(self.alloc);
        posts.push(Packet {
            from: self.me,
            to: from,
            body: Body::Nack {
                ballot,
                promise: self.kept_part.promise(),
            },
        })?;
        Ok(self.stage_posts(posts))
    }

    /// Stages the step of a Prepare.
    pub(crate) fn stage_prepare(
        &mut self,
        from: u8,
        ballot: Ballot,
        first: u32,
    ) -> Result<Ready<V>, AllocError>
        requires { PreservesInvariant (length self.old.node.weights) (on_prepare self.old.node from ballot first) }
        ensures ready { IfOk result (IsReadyFor self.new (on_prepare self.old.node from ballot first)) }
        ensures node { self.new.node ≡ self.old.node }
        ensures capacity { KeepsCapacity self.old self.new }
    {
        if !self.kept_part.promise().is_below(ballot) {
            return self.stage_nack_to(from, ballot);
        }
        let posts = promise_posts(self.alloc, &self.kept_part, self.me, from, ballot, first)?;
        let staged = StagedUpdates {
            change: Some(Change::Promise(ballot)),
            proposer: None,
            learner: None,
        };
        Ok(Ready::new(self, staged, posts))
    }

    /// Stages the step of an Accept.
    pub(crate) fn stage_accept(
        &mut self,
        from: u8,
        ballot: Ballot,
        slot: u32,
        value: &Option<V>,
    ) -> Result<Ready<V>, AllocError>
        requires slot { slot < SLOTS }
        requires preserves { PreservesInvariant (length self.old.node.weights)
            (on_accept self.old.node from ballot slot value.now) }
        ensures ready { IfOk result (IsReadyFor self.new (on_accept self.old.node from ballot slot value.now)) }
        ensures node { self.new.node ≡ self.old.node }
        ensures capacity { KeepsCapacity self.old self.new }
    {
        if ballot.is_below(self.kept_part.promise()) {
            return self.stage_nack_to(from, ballot);
        }
        self.kept_part.reserve(slot)?;
        let value = copy_value(value)?;
        self.stage_entry(slot, AcceptedEntry { ballot, value })
    }

    /// Stages accepting an entry, and posts Accepted to all nodes.
    fn stage_entry(&self, slot: u32, entry: AcceptedEntry<V>) -> Result<Ready<V>, AllocError>
        requires capacity { slot < self.now.accepted_capacity }
        requires preserves { PreservesInvariant (length self.now.node.weights)
            (accepts_value self.now.node entry.ballot slot entry.value) }
        ensures { IfOk result (IsReadyFor self.now (accepts_value self.now.node entry.ballot slot entry.value)) }
    {
        let message = Broadcast::Accepted {
            ballot: entry.ballot,
            slot,
            value: &entry.value,
        };
        let posts = broadcast_posts(self.alloc, self.me, &self.weights, &message)?;
        let staged = StagedUpdates {
            change: Some(Change::Entry { slot, entry }),
            proposer: None,
            learner: None,
        };
        Ok(Ready::new(self, staged, posts))
    }
}
