//! Stages the steps of a learner.
ghost use Rattle.std.specs.Prelude.{◌≡◌, ◌<◌, IfOk, length};
ghost use Rattle.slots.specs.declared.slots.TheConstants.{SLOTS};

use crate::ballot::Ballot;
use crate::learner::LearnerUpdate;
use crate::node::NodeCore;
use crate::packet::{Body, Packet};
use crate::posts::{Broadcast, broadcast_posts};
use crate::ready::{Ready, StagedUpdates};
use crate::value::{Value, copy_value};
use slots::SLOTS;
use std::alloc::AllocError;

impl<V: Value> NodeCore<V> {
    ghost use Rattle.synod.specs.Learner.{has_voter, counted, on_accepted, on_ask, on_told};
    ghost use Rattle.synod.specs.Learner.{asks_below, asks_for};
    ghost use Rattle.std.specs.Prelude.{Some};
    ghost use Rattle.synod.specs.declared.weights.TheConstants.{MAX_NODES};
    ghost use Rattle.synod.specs.Weights.{is_quorum};
    ghost use Rattle.synod.specs.Node.{volatile_step};
    ghost use Rattle.synod.specs.Updates.{CanUpdateLearner};
    ghost use Rattle.synod.specs.Step.{PreservesInvariant, IsNode};
    ghost use Rattle.synod.specs.Capacity.{KeepsCapacity};
    ghost use Rattle.synod.specs.Ready.{IsReadyFor, learner_of, with_learner_update};

    /// Stages the step of an Ask.
    pub(crate) fn stage_ask(&self, from: u8, slot: u32) -> Result<Ready<V>, AllocError>
        ensures { IfOk result (IsReadyFor self.now (on_ask self.now.node from slot)) }
    {
        let mut posts = Vec::new(self.alloc);
        if let Some(value) = self.learner.learned(slot) {
            posts.push(Packet {
                from: self.me,
                to: from,
                body: Body::Told {
                    slot,
                    value: copy_value(value)?,
                },
            })?;
        }
        Ok(self.stage_posts(posts))
    }

    /// Stages the step of a Told.
    pub(crate) fn stage_told(
        &mut self,
        from: u8,
        slot: u32,
        value: &Option<V>,
    ) -> Result<Ready<V>, AllocError>
        requires slot { slot < SLOTS }
        requires preserves { PreservesInvariant (length self.old.node.weights)
            (on_told self.old.node from slot value.now) }
        ensures ready { IfOk result (IsReadyFor self.new (on_told self.old.node from slot value.now)) }
        ensures node { self.new.node ≡ self.old.node }
        ensures capacity { KeepsCapacity self.old self.new }
    {
        if self.learner.learned(slot).is_some() {
            return Ok(self.stage_nothing());
        }
        self.learner.reserve(slot)?;
        let gap = self.learner.first_gap_with(slot);
        let value = copy_value(value)?;
        self.stage_told_value(LearnerUpdate::Learn { slot, value }, from, gap)
    }

    /// Stages the step of an Accepted.
    pub(crate) fn stage_accepted(
        &mut self,
        from: u8,
        ballot: Ballot,
        slot: u32,
        value: &Option<V>,
    ) -> Result<Ready<V>, AllocError>
        requires from { from < length self.old.node.weights }
        requires slot { slot < SLOTS }
        requires preserves { PreservesInvariant (length self.old.node.weights)
            (on_accepted self.old.node from ballot slot value.now) }
        ensures ready { IfOk result (IsReadyFor self.new (on_accepted self.old.node from ballot slot value.now)) }
        ensures node { self.new.node ≡ self.old.node }
        ensures capacity { KeepsCapacity self.old self.new }
    {
        if self.learner.learned(slot).is_some() {
            return Ok(self.stage_nothing());
        }
        self.learner.reserve(slot)?;
        if self.completes_quorum(slot, ballot, from) {
            let gap = self.learner.first_gap_with(slot);
            let update = LearnerUpdate::CountAndLearn {
                slot,
                ballot,
                node: from,
                value: copy_value(value)?,
            };
            self.stage_chosen(update, slot, gap)
        } else {
            let update = LearnerUpdate::Count {
                slot,
                ballot,
                node: from,
            };
            Ok(self.stage_learner_update(update, Vec::new(self.alloc)))
        }
    }

    /// Returns whether the nodes counted at a slot under a ballot are a quorum once `node` is
    /// counted: the value that they accepted is then chosen.
    fn completes_quorum(&self, slot: u32, ballot: Ballot, node: u8) -> bool
        requires { node < MAX_NODES }
        ensures { result ≡ is_quorum self.now.node.weights
            (has_voter (counted self.now.node.tallies slot ballot node) slot ballot) }
    {
        let voters = self.learner.voters_with(slot, ballot, node);
        self.weights.is_quorum(&voters)
    }

    /// Returns Asks to all other nodes for `gap`, the first gap once a value is learned at `slot`,
    /// if it is below `slot`.
    fn asks_others_for_first_gap(&self, slot: u32, gap: u32) -> Result<Vec<Packet<V>>, AllocError>
        ensures { IfOk result (λ posts. posts.items ≡ asks_below self.now.node slot gap) }
    {
        if gap >= slot {
            return Ok(Vec::new(self.alloc));
        }
        let message = Broadcast::Ask { slot: gap };
        broadcast_posts(self.alloc, self.me, &self.weights, &message)
    }

    /// Stages an update that learns a chosen value, and asks for `gap`, the first gap once it is
    /// learned, if that is below the slot.
    fn stage_chosen(
        &self,
        update: LearnerUpdate<V>,
        slot: u32,
        gap: u32,
    ) -> Result<Ready<V>, AllocError>
        requires capacity { CanUpdateLearner (learner_of self.now) (Some update) }
        requires node { IsNode (with_learner_update self.now.node update) }
        ensures { IfOk result
            (IsReadyFor self.now
            (volatile_step (with_learner_update self.now.node update) (asks_below self.now.node slot gap))) }
    {
        let posts = self.asks_others_for_first_gap(slot, gap)?;
        Ok(self.stage_learner_update(update, posts))
    }

    /// Stages an update that learns a value that `from` sent in a Told, and asks `from` for `gap`,
    /// the first gap once it is learned, unless the log is then full.
    fn stage_told_value(
        &self,
        update: LearnerUpdate<V>,
        from: u8,
        gap: u32,
    ) -> Result<Ready<V>, AllocError>
        requires capacity { CanUpdateLearner (learner_of self.now) (Some update) }
        requires node { IsNode (with_learner_update self.now.node update) }
        ensures { IfOk result
            (IsReadyFor self.now
            (volatile_step (with_learner_update self.now.node update) (asks_for self.now.node from gap))) }
    {
        let posts = self.asks_sender_for_first_gap(from, gap)?;
        Ok(self.stage_learner_update(update, posts))
    }

    /// Stages a step that changes only the learner.
    fn stage_learner_update(&self, update: LearnerUpdate<V>, posts: Vec<Packet<V>>) -> Ready<V>
        requires capacity { CanUpdateLearner (learner_of self.now) (Some update) }
        requires node { IsNode (with_learner_update self.now.node update) }
        ensures { IsReadyFor self.now (volatile_step (with_learner_update self.now.node update) posts.items) result }
    {
        let staged = StagedUpdates {
            change: None,
            proposer: None,
            learner: Some(update),
        };
        Ready::new(self, staged, posts)
    }

    /// Returns the Ask to `from` for `gap`, unless the log is full.
    fn asks_sender_for_first_gap(&self, from: u8, gap: u32) -> Result<Vec<Packet<V>>, AllocError>
        ensures { IfOk result (λ posts. posts.items ≡ asks_for self.now.node from gap) }
    {
        let mut posts = Vec::new(self.alloc);
        if gap < SLOTS {
            posts.push(Packet {
                from: self.me,
                to: from,
                body: Body::Ask { slot: gap },
            })?;
        }
        Ok(posts)
    }
}
