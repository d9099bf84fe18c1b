//! A staged event: all that its step needs is allocated, and nothing is changed yet.
ghost use Rattle.std.specs.Prelude.{◌≡◌, Some, None, MatchOption, length};
ghost use Rattle.std.specs.List.{AllByRecursion};
ghost use Rattle.synod.specs.Packets.{IsPost};
ghost use Rattle.synod.specs.Capacity.{KeepsCapacity};
ghost use Rattle.net.specs.KeptPart.{node_of_event};
ghost use Rattle.net.specs.Staged.{IsReadyAt, IsStagingResultOfEvent, posts_of, step_of, work_of};

use crate::event::Event;
use crate::fault::StepFault;
use std::marker::Model;
use synod::{Change, NodeCore, Packet, Ready, Record, Value};

/// The part of a staged event that its node commits.
#[derive(Drop)]
pub(crate) enum StagedWork<V> {
    Step(Ready<V>),
    /// A restart: its posts, and the record that the node starts from, if one was loaded.
    Restart(Vec<Packet<V>>, Option<Record<V>>),
}

/// An event of one node, ready to be committed.
#[derive(Drop)]
pub struct StagedEvent<V> {
    at: u8,
    event: Event<V>,
    work: StagedWork<V>,
}

impl<V> Model for StagedEvent<V> {
    ghost use Rattle.net.specs.Staged.{StagedEvent, work_of};

    ghost Value = { StagedEvent V };

    ghost view = { λ s. record { at = s.at; event = s.event; work = work_of s.work } };
}

impl<V: Value> StagedEvent<V> {
    ghost use Rattle.net.specs.Staged.{change_in, with_record};

    /// Returns the number of the node at which the event happens.
    pub fn at(&self) -> u8
        ensures { result ≡ self.now.at }
    {
        self.at
    }

    /// Returns the change that the event makes to the kept part of its node, if any.
    pub fn change(&self) -> Option<&Change<V>>
        ensures { MatchOption result (change_in self.now.work ≡ None)
            (λ change. change_in self.now.work ≡ Some change.now) }
    {
        match &self.work {
            StagedWork::Step(ready) => ready.change(),
            StagedWork::Restart(_, _) => None,
        }
    }

    /// Returns the packets that the event posts, in order.
    pub fn posts(&self) -> &[Packet<V>]
        ensures { result.now ≡ posts_of self.now.work }
    {
        match &self.work {
            StagedWork::Step(ready) => ready.posts(),
            StagedWork::Restart(posts, _) => posts.as_slice(),
        }
    }

    /// Sets the record that a restart starts from; other events are unchanged.
    pub fn load(&mut self, stored: Record<V>)
        ensures { self.new ≡ with_record self.old stored.kept }
    {
        if let StagedWork::Restart(_, loaded) = &mut self.work {
            *loaded = Some(stored);
        }
    }

    /// Splits the event into node, event and work. It does not allocate.
    pub(crate) fn into_parts(self) -> (u8, Event<V>, StagedWork<V>)
        ensures at { result.0 ≡ self.at }
        ensures event { result.1 ≡ self.event }
        ensures work { work_of result.2 ≡ self.work }
    {
        (self.at, self.event, self.work)
    }
}

/// Stages an event at its node.
///
/// Errors: the node's refusal, or `Memory`. Cost: that of the step; an offer copies its value once,
/// for the history.
pub(crate) fn stage_event<V: Value>(
    node: &mut NodeCore<V>,
    k: u8,
    event: Event<V>,
    packets: &[Packet<V>],
) -> Result<StagedEvent<V>, StepFault>
    requires posts { AllByRecursion (IsPost (length node.old.node.weights)) packets.now }
    requires at { node_of_event packets.now event ≡ Some k }
    ensures ready { IsStagingResultOfEvent V.bytes packets.now node.old node.new k event result }
    ensures node { node.new.node ≡ node.old.node }
    ensures capacity { KeepsCapacity node.old node.new }
{
    let (event, work) = match event {
        Event::Offer(at, value) => {
            let copy = value.copy();
            let ready = node.ready_offer(value)?;
            (Event::Offer(at, copy?), StagedWork::Step(ready))
        }
        Event::Begin(at) => (Event::Begin(at), StagedWork::Step(node.ready_begin()?)),
        Event::Deliver(number) => {
            let ready = node.ready_packet(&packets[number as usize])?;
            (Event::Deliver(number), StagedWork::Step(ready))
        }
        Event::Restart(at) => (
            Event::Restart(at),
            StagedWork::Restart(node.restart_posts()?, None),
        ),
    };
    Ok(StagedEvent { at: k, event, work })
}

/// Commits staged work, and returns its posts. It does not allocate.
pub(crate) fn commit_at<V: Value>(node: &mut NodeCore<V>, work: StagedWork<V>) -> Vec<Packet<V>>
    requires { IsReadyAt node.old (work_of work) }
    ensures node { node.new.node ≡ (step_of (work_of work) node.old.node).node }
    ensures posts { result.items ≡ posts_of (work_of work) }
{
    match work {
        StagedWork::Step(ready) => node.commit(ready),
        StagedWork::Restart(posts, loaded) => {
            match loaded {
                Some(stored) => node.commit_reload(stored),
                None => node.commit_restart(),
            }
            posts
        }
    }
}
