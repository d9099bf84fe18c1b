//! One node: proposer, acceptor and learner at once.
ghost use Rattle.std.specs.Prelude.{◌≡◌, ◌<◌, ◌≤◌, IfOk, IsOkUnless, IsSome, Ok, Err, Some, None};
ghost use Rattle.std.specs.Prelude.{MatchOption, length};
ghost use Rattle.std.specs.List.{AllByRecursion};

mod accepting;
mod gathering;
mod learning;
mod proposing;
mod state;

use crate::ballot::Ballot;
use crate::learner::Learner;
use crate::packet::{Body, Packet};
use crate::posts::{Broadcast, broadcast_posts};
use crate::proposer::{MAX_WAITING, Proposer, Role};
use crate::ready::{Ready, StagedUpdates};
use crate::record::Record;
use crate::refusal::Refusal;
use crate::value::{MAX_VALUE_BYTES, Value, copy_value};
use crate::weights::Weights;
use slots::SLOTS;
pub use state::NodeState;
use std::alloc::{AllocError, Global};
use std::marker::Model;

/// One node of a replicated log, generic over its values. Contracts see a `Core`: its state
/// (`Node`) and the capacity that it has reserved.
///
/// Source: Lamport, Paxos Made Simple, 2 and 3; `specs/Step.antt` and `specs/Proposer.antt` define
/// the steps.
#[derive(Drop)]
pub struct NodeCore<V> {
    alloc: Global,
    /// The number of this node, from 0.
    me: u8,
    weights: Weights,
    kept_part: Record<V>,
    proposer: Proposer<V>,
    learner: Learner<V>,
}

impl<V> Model for NodeCore<V> {
    ghost use Rattle.synod.specs.Core.{Core, core_of, assembled};
    ghost use Rattle.synod.specs.Step.{IsNode};

    ghost Value = { Core V };

    ghost view = { λ n. core_of n.me n.weights n.kept_part n.proposer n.learner };

    ghost invariant = { λ n. IsNode (assembled n.me n.weights n.kept_part.kept n.proposer.state n.learner.state) };
}

impl<V: Value> NodeCore<V> {
    ghost use Rattle.std.specs.Prelude.{slice_get};
    ghost use Rattle.synod.specs.Packets.{IsPacket, IsPost, IsBody, to_others};
    ghost use Rattle.synod.specs.declared.packet.Body.TheVariants.{Ask};
    ghost use Rattle.synod.specs.Node.{new_node, unchanged, volatile_step};
    ghost use Rattle.synod.specs.Log.{log_of};
    ghost use Rattle.synod.specs.Proposer.{begin_result, offer_result, offer_waits};
    ghost use Rattle.synod.specs.Step.{IsNode, PreservesInvariant, on_body, on_packet, reloaded};
    ghost use Rattle.synod.specs.Step.{restarted};
    ghost use Rattle.synod.specs.Refusals.{IsCallResult};
    ghost use Rattle.synod.specs.Ready.{IsStagingResult, IsReadyFor, staged_node, CanCommit};
    ghost use Rattle.synod.specs.Capacity.{KeepsCapacity};
    ghost use Rattle.synod.specs.declared.refusal.Refusal.TheVariants.{Memory};

    /// Creates the new node `me` among nodes with these weights. It does not allocate.
    pub fn new(alloc: Global, me: u8, weights: Weights) -> Self
        requires { me < length weights }
        ensures { result.node ≡ new_node me weights }
    {
        prove!(me < weights.count());
        NodeCore {
            alloc,
            me,
            weights,
            kept_part: Record::new(alloc),
            proposer: Proposer::new(alloc),
            learner: Learner::new(alloc),
        }
    }

    /// Returns the number of nodes, of which this is one.
    pub fn node_count(&self) -> u8
        ensures count { result ≡ length self.now.node.weights }
        ensures node { IsNode self.now.node }
    {
        self.weights.count()
    }

    /// Stages `begin`, or returns its refusal. The node is unchanged.
    ///
    /// Errors and cost: those of `begin`.
    pub fn ready_begin(&mut self) -> Result<Ready<V>, Refusal>
        ensures ready { IsStagingResult self.new (begin_result self.old.node) result }
        ensures node { self.new.node ≡ self.old.node }
        ensures capacity { KeepsCapacity self.old self.new }
        ensures posts { IfOk result (λ ready. AllByRecursion (IsPost (length self.old.node.weights)) ready.step.posts) }
    {
        let last = std::cmp::max(self.kept_part.round(), self.kept_part.promise().round);
        if last == u64::MAX {
            return Err(Refusal::RoundsSpent);
        }
        let ballot = Ballot {
            round: last + 1,
            node: self.me,
        };
        or_memory(self.stage_ballot(ballot))
    }

    /// Stages `offer`, or returns its refusal. The node is unchanged.
    ///
    /// Errors and cost: those of `offer`.
    pub fn ready_offer(&mut self, value: V) -> Result<Ready<V>, Refusal>
        ensures ready { IsStagingResult self.new (offer_result V.bytes self.old.node value) result }
        ensures node { self.new.node ≡ self.old.node }
        ensures capacity { KeepsCapacity self.old self.new }
        ensures posts { IfOk result (λ ready. AllByRecursion (IsPost (length self.old.node.weights)) ready.step.posts) }
    {
        if value.size() > MAX_VALUE_BYTES {
            return Err(Refusal::TooLong);
        }
        match self.proposer.role() {
            Role::Leading { ballot, next } => {
                if next == SLOTS {
                    return Err(Refusal::LogFull);
                }
                or_memory(self.stage_proposal(ballot, next, value))
            }
            Role::Preparing { .. } => self.stage_offer_waiting(value),
            Role::Idle => self.stage_offer_waiting(value),
        }
    }

    /// Stages an offer to a node that does not lead: the value waits.
    fn stage_offer_waiting(&mut self, value: V) -> Result<Ready<V>, Refusal>
        ensures ready { IsStagingResult self.new (offer_waits self.old.node value) result }
        ensures node { self.new.node ≡ self.old.node }
        ensures capacity { KeepsCapacity self.old self.new }
        ensures posts { IfOk result (λ ready. AllByRecursion (IsPost (length self.old.node.weights)) ready.step.posts) }
    {
        if self.learner.first_gap() == SLOTS {
            return Err(Refusal::LogFull);
        }
        if self.proposer.waiting().len() >= MAX_WAITING {
            return Err(Refusal::Busy);
        }
        or_memory(self.stage_waiting(value))
    }

    /// Stages `on_packet`, or returns `Memory`. The node is unchanged.
    ///
    /// Cost: that of `on_packet`.
    pub fn ready_packet(&mut self, packet: &Packet<V>) -> Result<Ready<V>, Refusal>
        requires { IsPacket (length self.old.node.weights) packet.now }
        ensures ready { IsStagingResult self.new (Ok (on_packet self.old.node packet.now)) result }
        ensures node { self.new.node ≡ self.old.node }
        ensures capacity { KeepsCapacity self.old self.new }
        ensures posts { IfOk result (λ ready. AllByRecursion (IsPost (length self.old.node.weights)) ready.step.posts) }
    {
        prove!(packet.from < self.node_count());
        or_memory(self.stage_body(packet.from, &packet.body))
    }

    /// Stages the step of a packet with this body.
    fn stage_body(&mut self, from: u8, body: &Body<V>) -> Result<Ready<V>, AllocError>
        requires from { from < length self.old.node.weights }
        requires body { IsBody body.now }
        requires preserves { PreservesInvariant (length self.old.node.weights) (on_body self.old.node from body.now) }
        ensures ready { IfOk result (IsReadyFor self.new (on_body self.old.node from body.now)) }
        ensures node { self.new.node ≡ self.old.node }
        ensures capacity { KeepsCapacity self.old self.new }
    {
        match body {
            Body::Prepare { ballot, first } => self.stage_prepare(from, *ballot, *first),
            Body::Promise {
                ballot,
                page,
                count,
                reports,
            } => self.stage_promise(from, *ballot, *page, *count, reports),
            Body::Accept {
                ballot,
                slot,
                value,
            } => self.stage_accept(from, *ballot, *slot, value),
            Body::Accepted {
                ballot,
                slot,
                value,
            } => self.stage_accepted(from, *ballot, *slot, value),
            Body::Nack { ballot, promise } => Ok(self.stage_nack(*ballot, *promise)),
            Body::Ask { slot } => self.stage_ask(from, *slot),
            Body::Told { slot, value } => self.stage_told(from, *slot, value),
        }
    }

    /// Commits a staged step, and returns its posts. It does not allocate.
    ///
    /// The node has to be as it was when it staged the step, with no less capacity than it had
    /// then. That is so if it has only staged steps since then, and committed none.
    pub fn commit(&mut self, ready: Ready<V>) -> Vec<Packet<V>>
        requires node { self.old.node ≡ ready.before.node }
        requires capacity { KeepsCapacity ready.before self.old }
        ensures node { self.new.node ≡ ready.step.node }
        ensures posts { result.items ≡ ready.step.posts }
    {
        let (staged, posts) = ready.into_staged();
        self.apply(staged);
        posts
    }

    /// Applies the updates of a staged step. It does not allocate.
    fn apply(&mut self, staged: StagedUpdates<V>)
        requires { CanCommit self.old staged }
        ensures { self.new.node ≡ staged_node self.old.node staged }
    {
        self.kept_part.apply_change(staged.change);
        self.proposer.apply_update(staged.proposer);
        self.learner.apply_update(staged.learner);
    }

    /// Begins a ballot above all that the node has begun or promised, and returns the posts. After
    /// an error the node is unchanged.
    ///
    /// Errors, the first that applies: `RoundsSpent`, `Memory`. Cost: the posts, and the pages of
    /// an earlier ballot, which it discards.
    pub fn begin(&mut self) -> Result<Vec<Packet<V>>, Refusal>
        ensures outcome { IsCallResult self.old.node self.new.node (begin_result self.old.node) result }
        ensures posts { IfOk result (λ posts. AllByRecursion (IsPost (length self.old.node.weights)) posts.items) }
    {
        match self.ready_begin() {
            Ok(ready) => Ok(self.commit(ready)),
            Err(refusal) => Err(refusal),
        }
    }

    /// Stages a step that only posts.
    pub(crate) fn stage_posts(&self, posts: Vec<Packet<V>>) -> Ready<V>
        ensures { IsReadyFor self.now (volatile_step self.now.node posts.items) result }
    {
        prove!(self.me < self.node_count());
        let staged = StagedUpdates {
            change: None,
            proposer: None,
            learner: None,
        };
        Ready::new(self, staged, posts)
    }

    /// Stages a step that does nothing.
    pub(crate) fn stage_nothing(&self) -> Ready<V>
        ensures { IsReadyFor self.now (unchanged self.now.node) result }
    {
        self.stage_posts(Vec::new(self.alloc))
    }

    /// Offers a value, and returns the posts. A leader proposes it; at another node it waits. After
    /// an error the node is unchanged.
    ///
    /// Errors, the first that applies: `TooLong`, `LogFull`, `Busy`, `Memory`. Cost: the posts,
    /// each with a copy of the value.
    pub fn offer(&mut self, value: V) -> Result<Vec<Packet<V>>, Refusal>
        ensures outcome { IsCallResult self.old.node self.new.node (offer_result V.bytes self.old.node value) result }
        ensures posts { IfOk result (λ posts. AllByRecursion (IsPost (length self.old.node.weights)) posts.items) }
    {
        match self.ready_offer(value) {
            Ok(ready) => Ok(self.commit(ready)),
            Err(refusal) => Err(refusal),
        }
    }

    /// Receives a packet, and returns the posts. After `Memory` the node is unchanged, as if the
    /// packet were lost.
    ///
    /// Cost: the packet, the posts, and the capacity that it reserves, up to the slot or the page
    /// of the packet. A Prepare that is not refused also costs the slots from its first one up to
    /// the top of the record. The page that completes a quorum also costs all pages received for
    /// the ballot. A packet that fills the first gap of a map scans on to the next gap.
    pub fn on_packet(&mut self, packet: &Packet<V>) -> Result<Vec<Packet<V>>, Refusal>
        requires { IsPacket (length self.old.node.weights) packet.now }
        ensures outcome { IsCallResult self.old.node self.new.node (Ok (on_packet self.old.node packet.now)) result }
        ensures posts { IfOk result (λ posts. AllByRecursion (IsPost (length self.old.node.weights)) posts.items) }
    {
        match self.ready_packet(packet) {
            Ok(ready) => Ok(self.commit(ready)),
            Err(refusal) => Err(refusal),
        }
    }

    /// Returns entry `slot` of the log: the value learned there, if there is no gap below it.
    pub fn entry(&self, slot: u32) -> Option<&Option<V>>
        ensures entry { MatchOption result (slice_get (log_of self.now.node) slot ≡ None)
            (λ entry. slice_get (log_of self.now.node) slot ≡ Some entry.now) }
        ensures below { IsSome result → slot < SLOTS }
    {
        if slot < self.learner.first_gap() {
            self.learner.learned(slot)
        } else {
            None
        }
    }

    /// Returns the log: the values learned at the slots from 0 up to the first gap.
    ///
    /// Errors: an allocation fails. Cost: the size of the log; each value is copied once.
    pub fn log(&self) -> Result<Vec<Option<V>>, AllocError>
        ensures { IfOk result (λ log. log.items ≡ log_of self.now.node) }
    {
        let mut log = Vec::new(self.alloc);
        for slot in 0..self.learner.first_gap() {
            let Some(entry) = self.learner.learned(slot) else {
                break;
            };
            let copy = copy_value(entry)?;
            log.push(copy)?;
        }
        Ok(log)
    }

    /// Returns the posts of a restart, which ask all other nodes for the first entry, or `Memory`.
    pub fn restart_posts(&self) -> Result<Vec<Packet<V>>, Refusal>
        ensures asks { IfOk result (λ posts. posts.items ≡ to_others self.now.node.me self.now.node.weights (Ask 0)) }
        ensures posts { IfOk result (λ posts. AllByRecursion (IsPost (length self.now.node.weights)) posts.items) }
        ensures only_memory { IsOkUnless result Memory }
    {
        let Ok(posts) = self.ask_others() else {
            return Err(Refusal::Memory);
        };
        Ok(posts)
    }

    /// Commits a restart: the kept part stays, the rest is that of a new node. It does not
    /// allocate.
    pub fn commit_restart(&mut self)
        ensures { self.new.node ≡ (restarted self.old.node).node }
    {
        self.proposer = Proposer::new(self.alloc);
        self.learner = Learner::new(self.alloc);
    }

    /// Commits a restart with a loaded record as the kept part. It does not allocate.
    pub fn commit_reload(&mut self, stored: Record<V>)
        ensures { self.new.node ≡ (reloaded self.old.node stored.kept).node }
    {
        prove!(stored.top() <= SLOTS);
        self.kept_part = stored;
        self.commit_restart();
    }

    /// Restarts: the kept part stays, the rest is that of a new node. Returns posts that ask all
    /// other nodes for the first entry. After `Memory` the node is unchanged.
    pub fn restart(&mut self) -> Result<Vec<Packet<V>>, Refusal>
        ensures outcome { IsCallResult self.old.node self.new.node (Ok (restarted self.old.node)) result }
        ensures posts { IfOk result (λ posts. AllByRecursion (IsPost (length self.old.node.weights)) posts.items) }
    {
        let posts = self.restart_posts()?;
        self.commit_restart();
        Ok(posts)
    }

    /// Restarts with a loaded record as the kept part, and returns posts as `restart` does. After
    /// `Memory` the node is unchanged.
    pub fn reload(&mut self, stored: Record<V>) -> Result<Vec<Packet<V>>, Refusal>
        ensures outcome { IsCallResult self.old.node self.new.node (Ok (reloaded self.old.node stored.kept)) result }
        ensures posts { IfOk result (λ posts. AllByRecursion (IsPost (length self.old.node.weights)) posts.items) }
    {
        let posts = self.restart_posts()?;
        self.commit_reload(stored);
        Ok(posts)
    }

    /// Returns the packets that ask all other nodes for the first entry.
    fn ask_others(&self) -> Result<Vec<Packet<V>>, AllocError>
        ensures asks { IfOk result (λ posts. posts.items ≡ to_others self.now.node.me self.now.node.weights (Ask 0)) }
        ensures posts { IfOk result (λ posts. AllByRecursion (IsPost (length self.now.node.weights)) posts.items) }
    {
        let message = Broadcast::Ask { slot: 0 };
        broadcast_posts(self.alloc, self.me, &self.weights, &message)
    }
}

/// Turns a failed allocation into `Memory`.
fn or_memory<T>(answer: Result<T, AllocError>) -> Result<T, Refusal>
    ensures ok { (made : T) → answer ≡ Ok made → result ≡ Ok made }
    ensures err { (failed : AllocError) → answer ≡ Err failed → result ≡ Err Refusal.Memory }
{
    match answer {
        Ok(made) => Ok(made),
        Err(_) => Err(Refusal::Memory),
    }
}
