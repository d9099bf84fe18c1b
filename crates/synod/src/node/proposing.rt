//! Stages the steps of a proposer.
ghost use Rattle.std.specs.Prelude.{◌≡◌, ◌<◌, ◌≤◌, IfOk, Some, length};
ghost use Rattle.slots.specs.declared.slots.TheConstants.{SLOTS};

use crate::ballot::Ballot;
use crate::change::Change;
use crate::node::NodeCore;
use crate::packet::Packet;
use crate::posts::{Broadcast, broadcast_posts};
use crate::promise_pages::ReceivedPages;
use crate::proposer::ProposerUpdate;
use crate::ready::{Ready, StagedUpdates};
use crate::value::Value;
use std::alloc::AllocError;

impl<V: Value> NodeCore<V> {
    ghost use Rattle.synod.specs.Node.{volatile_step};
    ghost use Rattle.synod.specs.Proposer.{begins, next_ballot, waits, proposes_value, on_nack};
    ghost use Rattle.synod.specs.Updates.{CanUpdateProposer};
    ghost use Rattle.synod.specs.Step.{PreservesInvariant, IsNode};
    ghost use Rattle.synod.specs.Capacity.{KeepsCapacity};
    ghost use Rattle.synod.specs.Ready.{IsReadyFor, proposer_of, with_proposer_update};

    /// Stages a step that changes only the proposer.
    pub(crate) fn stage_proposer_update(
        &self,
        update: ProposerUpdate<V>,
        posts: Vec<Packet<V>>,
    ) -> Ready<V>
        requires capacity { CanUpdateProposer (proposer_of self.now) (Some update) }
        requires node { IsNode (with_proposer_update self.now.node update) }
        ensures { IsReadyFor self.now (volatile_step (with_proposer_update self.now.node update) posts.items) result }
    {
        let staged = StagedUpdates {
            change: None,
            proposer: Some(update),
            learner: None,
        };
        Ready::new(self, staged, posts)
    }

    /// Stages adding a value to those that wait.
    pub(crate) fn stage_waiting(&mut self, value: V) -> Result<Ready<V>, AllocError>
        requires preserves { PreservesInvariant (length self.old.node.weights) (waits self.old.node value) }
        ensures ready { IfOk result (IsReadyFor self.new (waits self.old.node value)) }
        ensures node { self.new.node ≡ self.old.node }
        ensures capacity { KeepsCapacity self.old self.new }
    {
        self.proposer.reserve_waiting()?;
        Ok(self.stage_proposer_update(ProposerUpdate::AddWaiting(value), Vec::new(self.alloc)))
    }

    /// Stages proposing a value at the next slot.
    pub(crate) fn stage_proposal(
        &mut self,
        ballot: Ballot,
        slot: u32,
        value: V,
    ) -> Result<Ready<V>, AllocError>
        requires slot { slot < SLOTS }
        requires preserves { PreservesInvariant (length self.old.node.weights)
            (proposes_value self.old.node ballot slot value) }
        ensures ready { IfOk result (IsReadyFor self.new (proposes_value self.old.node ballot slot value)) }
        ensures node { self.new.node ≡ self.old.node }
        ensures capacity { KeepsCapacity self.old self.new }
    {
        let value = Some(value);
        let message = Broadcast::Accept {
            ballot,
            slot,
            value: &value,
        };
        let posts = broadcast_posts(self.alloc, self.me, &self.weights, &message)?;
        let next = slot + 1;
        Ok(self.stage_proposer_update(ProposerUpdate::Propose { ballot, next }, posts))
    }

    /// Stages the start of a ballot.
    pub(crate) fn stage_ballot(&mut self, ballot: Ballot) -> Result<Ready<V>, AllocError>
        requires preserves { PreservesInvariant (length self.old.node.weights) (begins self.old.node) }
        requires ballot { ballot ≡ next_ballot self.old.node }
        ensures ready { IfOk result (IsReadyFor self.new (begins self.old.node)) }
        ensures node { self.new.node ≡ self.old.node }
        ensures capacity { KeepsCapacity self.old self.new }
    {
        let first = self.learner.first_gap();
        let pages = ReceivedPages::for_nodes(self.alloc, &self.weights)?;
        let message = Broadcast::Prepare { ballot, first };
        let posts = broadcast_posts(self.alloc, self.me, &self.weights, &message)?;
        let staged = StagedUpdates {
            change: Some(Change::Round(ballot.round)),
            proposer: Some(ProposerUpdate::Begin {
                ballot,
                first,
                pages,
            }),
            learner: None,
        };
        Ok(Ready::new(self, staged, posts))
    }

    /// Stages the step of a Nack: giving up the ballot if a higher one is promised.
    pub(crate) fn stage_nack(&self, ballot: Ballot, promise: Ballot) -> Ready<V>
        requires { PreservesInvariant (length self.now.node.weights) (on_nack self.now.node ballot promise) }
        ensures { IsReadyFor self.now (on_nack self.now.node ballot promise) result }
    {
        if self.proposer.role().is_at(ballot) && ballot.is_below(promise) {
            self.stage_proposer_update(ProposerUpdate::Idle, Vec::new(self.alloc))
        } else {
            self.stage_nothing()
        }
    }
}
