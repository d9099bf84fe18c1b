//! A net: the nodes of a log, all packets that they posted, and the events that led there, over any
//! values.
ghost use Rattle.synod.specs.Weights.{IsWeights};
ghost use Rattle.synod.specs.Node.{restarted_node};
ghost use Rattle.net.specs.History.{kept_parts_of, nodes_of, parts_of};
ghost use Rattle.net.specs.World.{new_parts, nodes_with};
ghost use Rattle.std.specs.Prelude.{◌≡◌, ◌↔◌, ◌≤◌, ◌<◌, ◌++◌, [], Ok, Err, Some, None, length};
ghost use Rattle.std.specs.Prelude.{vec_len, vec_capacity, IfOk, IsOk, OnOk, OnErr, IsOkUnless};
ghost use Rattle.std.specs.Prelude.{MatchResult};

use crate::event::Event;
use crate::fault::StepFault;
use crate::ghost_value::GhostValue;
use crate::staged::{StagedEvent, commit_at, stage_event};
use std::alloc::{AllocError, Global};
use std::marker::Model;
use synod::{NodeCore, Packet, Record, Value, Weights};

/// The nodes of a world and their packets. Contracts see the weights, the limit on events, the kept
/// parts with which the nodes began, the events taken, the nodes and packets of the world after
/// them, and the reserved capacity.
///
/// Source: Lamport, Paxos Made Simple, sections 2 and 3; `specs/World.antt` defines the world after
/// a list of events.
#[derive(Drop)]
pub struct Net<V: Value> {
    weights: Weights,
    /// The number of events that the net takes.
    event_limit: u64,
    /// The record with which each node began, which contracts alone see.
    begins: Vec<GhostValue<Record<V>>>,
    pub(crate) nodes: Vec<NodeCore<V>>,
    packets: Vec<Packet<V>>,
    events: Vec<Event<V>>,
}

impl<V: Value> Model for Net<V> {
    ghost use Rattle.std.specs.Prelude.{vec_capacity};
    ghost use Rattle.net.specs.History.{AreOfWorld, parts_of};
    ghost use Rattle.net.specs.Staged.{NetView};

    ghost Value = { NetView V };

    ghost view = { λ w. record {
      history = record {
        weights = w.weights;
        event_limit = w.event_limit;
        begins = parts_of w.begins.items;
        events = w.events.items;
      };
      cores = w.nodes.items;
      packets = w.packets.items;
      packet_capacity = vec_capacity w.packets;
      event_capacity = vec_capacity w.events;
    } };

    ghost invariant = { λ w. AreOfWorld V.bytes
        (record {
          weights = w.weights;
          event_limit = w.event_limit;
          begins = parts_of w.begins.items;
          events = w.events.items;
        })
        w.nodes.items w.packets.items };
}

impl<V: Value> Net<V> {
    ghost use Rattle.std.specs.Prelude.{slice_get, IfErr, IsSome};
    ghost use Rattle.slots.specs.declared.slots.TheConstants.{SLOTS};
    ghost use Rattle.net.specs.World.{log_after, packets_after, IsLogEntry};
    ghost use Rattle.net.specs.History.{AreOfWorld, BeginsNew, kept_parts_of, new_history};
    ghost use Rattle.net.specs.History.{world_of, with_event};
    ghost use Rattle.net.specs.KeptPart.{node_of_event};
    ghost use Rattle.net.specs.Staged.{IsStagingResultInNet, HasSpareCapacity, IsStaged, IsOfEvent};
    ghost use Rattle.net.specs.Staged.{ChangesOnlyCapacity, IsTaken, posts_of};
    ghost use Rattle.net.specs.Agreement.{Agreement};
    ghost use Rattle.net.specs.Resumed.{BeginsAgain, GoesOn, IsIdle, RunBefore};
    ghost use Rattle.net.specs.declared.fault.StepFault.TheVariants.{NoNode, NoPacket, Memory};

    /// Creates a net with a new node for each weight, which takes at most `event_limit` events. It
    /// has taken none.
    ///
    /// Errors: `Memory`.
    pub fn new(alloc: Global, weights: Weights, event_limit: u64) -> Result<Self, StepFault>
        ensures new { IfOk result (λ net. net.history ≡ new_history weights event_limit []) }
        ensures world { IfOk result (λ net. AreOfWorld V.bytes net.history net.cores net.packets) }
        ensures only_memory { IsOkUnless result Memory }
    {
        let records = new_records(alloc, weights)?;
        Net::resume(alloc, weights, event_limit, records)
    }

    /// Creates a net whose nodes begin with these records, one for each weight, as a restart leaves
    /// them. It takes at most `event_limit` events, and has taken none.
    ///
    /// Errors: `Memory`. Cost: a constant for each node.
    pub fn resume(
        alloc: Global,
        weights: Weights,
        event_limit: u64,
        records: Vec<Record<V>>,
    ) -> Result<Self, StepFault>
        requires { length records.items ≡ length weights }
        ensures resumed { IfOk result
            (λ net. net.history
            ≡ record {
              weights = weights;
              event_limit = event_limit;
              begins = kept_parts_of records.items;
              events = [];
            }) }
        ensures world { IfOk result (λ net. AreOfWorld V.bytes net.history net.cores net.packets) }
        ensures only_memory { IsOkUnless result Memory }
    {
        let (begins, nodes) = begin_nodes(alloc, weights, records)?;
        Ok(Net {
            weights,
            event_limit,
            begins,
            nodes,
            packets: Vec::new(alloc),
            events: Vec::new(alloc),
        })
    }

    /// Lets node `k`, at which nothing happened, begin again with this record. The events taken are
    /// then events of nodes of which this one began so. It does not allocate.
    pub fn begin_again(&mut self, k: u8, stored: Record<V>)
        requires node { k < length self.old.history.weights }
        requires idle { IsIdle V.bytes self.old.history k }
        ensures { BeginsAgain V.bytes self.old self.new k stored.kept }
    {
        let at = k as usize;
        self.begins[at] = GhostValue::of(&stored);
        self.nodes[at].commit_reload(stored);
    }

    /// Stages an event: allocates all that its step needs, and changes nothing but capacity.
    ///
    /// Errors: the first fault that the event meets, or `Memory` if it meets none. Cost: that of
    /// the step at its node.
    pub fn stage(&mut self, event: Event<V>) -> Result<StagedEvent<V>, StepFault>
        ensures staged { IfOk result (IsStaged V.bytes self.new) }
        ensures event { IfOk result (λ staged. staged.event ≡ event) }
        ensures kind { IfOk result (λ staged. IsOfEvent event staged.work) }
        ensures capacity { IfOk result (λ staged. HasSpareCapacity self.new (length (posts_of staged.work)) 1) }

        // A fault is returned even if every allocation fails.
        ensures refused { IfErr (world_of V.bytes (with_event self.old.history event)) (λ fault. result ≡ Err fault) }
        ensures only_memory { OnOk (world_of V.bytes (with_event self.old.history event)) (IsOkUnless result Memory) }
        ensures only_capacity { ChangesOnlyCapacity self.old self.new }
        ensures few { IfOk result (λ _. length self.old.history.events < self.old.history.event_limit) }
    {
        if self.events.len() as u64 == self.event_limit {
            return Err(StepFault::EventsSpent);
        }
        let staged = self.stage_at_node(event)?;
        self.reserve(staged.posts().len(), 1)?;
        Ok(staged)
    }

    /// Returns the node at which an event happens; for a delivery the receiver of the packet, or
    /// `None` if there is no such packet.
    pub fn node_of(&self, event: &Event<V>) -> Option<u8>
        ensures { result ≡ node_of_event self.now.packets event.now }
    {
        match event {
            Event::Offer(k, _) => Some(*k),
            Event::Begin(k) => Some(*k),
            Event::Deliver(number) => match self.packets.get(*number as usize) {
                Some(packet) => Some(packet.to),
                None => None,
            },
            Event::Restart(k) => Some(*k),
        }
    }

    /// Stages an event at its node, and reserves no capacity for its posts among the packets of the
    /// net.
    fn stage_at_node(&mut self, event: Event<V>) -> Result<StagedEvent<V>, StepFault>
        requires { length self.old.history.events < self.old.history.event_limit }
        ensures staged { IsStagingResultInNet V.bytes self.new event
            (world_of V.bytes (with_event self.old.history event)) result }
        ensures only_capacity { ChangesOnlyCapacity self.old self.new }
    {
        let Some(k) = self.node_of(&event) else {
            return Err(StepFault::NoPacket);
        };
        let Some(node) = self.nodes.get_mut(k as usize) else {
            return Err(StepFault::NoNode);
        };
        stage_event(node, k, event, &self.packets)
    }

    /// Reserves capacity for `packets` more packets and `events` more events.
    ///
    /// Errors: `Memory`.
    pub fn reserve(&mut self, packets: usize, events: usize) -> Result<(), StepFault>
        ensures capacity { OnOk result (HasSpareCapacity self.new packets events) }
        ensures only_memory { IsOkUnless result Memory }
        ensures only_capacity { ChangesOnlyCapacity self.old self.new }
    {
        self.packets.reserve(packets)?;
        self.events.reserve(events)?;
        Ok(())
    }

    /// Commits a staged event, and returns the number of packets posted so far. It does not
    /// allocate.
    pub fn commit(&mut self, staged: StagedEvent<V>) -> u64
        requires staged { IsStaged V.bytes self.old staged }
        requires capacity { HasSpareCapacity self.old (length (posts_of staged.work)) 1 }
        requires few { length self.old.history.events < self.old.history.event_limit }
        ensures taken { IsTaken self.old self.new staged }
        ensures posted { result ≡ length (packets_after (world_of V.bytes self.new.history)) }
    {
        let (at, event, work) = staged.into_parts();
        let mut posts = commit_at(&mut self.nodes[at as usize], work);
        // This cannot fail: there is capacity for the posts.
        let _added = self.packets.append(&mut posts);
        self.events.push_reserved(event);
        self.packets.len() as u64
    }

    /// Stages an event and commits it. Returns the number of packets posted so far.
    ///
    /// Errors: the first fault that the event meets, or `Memory` if it meets none; the events
    /// taken, and so the nodes and packets, are then unchanged.
    pub fn step(&mut self, event: Event<V>) -> Result<u64, StepFault>
        ensures taken { OnOk result (self.new.history ≡ with_event self.old.history event) }
        ensures posted { IfOk result (λ count. count ≡ length (packets_after (world_of V.bytes self.new.history))) }

        // A fault is returned even if every allocation fails.
        ensures refused { IfErr (world_of V.bytes (with_event self.old.history event)) (λ fault. result ≡ Err fault) }
        ensures only_memory { OnOk (world_of V.bytes (with_event self.old.history event)) (IsOkUnless result Memory) }
        ensures same { OnErr result (self.new.history ≡ self.old.history) }
    {
        let staged = self.stage(event)?;
        Ok(self.commit(staged))
    }

    /// Returns the events taken, oldest first. None of them meets a fault. Agreement holds after
    /// every prefix of them, if the nodes began as new ones; if they began with what an earlier run
    /// left, it holds of that run and these events as one run.
    pub fn history(&self) -> &[Event<V>]
        ensures events { result.now ≡ self.now.history.events }
        ensures few { length self.now.history.events ≤ self.now.history.event_limit }
        ensures agreement { BeginsNew self.now.history → Agreement V.bytes self.now.history }
        ensures resumed { (before : RunBefore V.bytes self.now.history) → GoesOn V.bytes self.now.history before }
        ensures world { AreOfWorld V.bytes self.now.history self.now.cores self.now.packets }
    {
        &self.events
    }

    /// Returns the number of packets posted so far.
    pub fn posted(&self) -> u64
        ensures { result ≡ length (packets_after (world_of V.bytes self.now.history)) }
    {
        self.packets.len() as u64
    }

    /// Returns the number of events that the net takes.
    pub fn event_limit(&self) -> u64
        ensures { result ≡ self.now.history.event_limit }
    {
        self.event_limit
    }

    /// Returns entry `slot` of the log of node `k`, or `None` if the log is not that long. An entry
    /// that is itself `None` is a no-operation. It does not allocate.
    ///
    /// Errors: `NoNode`.
    pub fn entry(&self, k: u8, slot: u32) -> Result<Option<&Option<V>>, StepFault>
        ensures entry { IfOk result (IsLogEntry (world_of V.bytes self.now.history) k slot) }
        ensures below { IfOk result (λ found. IsSome found → slot < SLOTS) }
        ensures no_node { length self.now.history.weights ≤ k → result ≡ Err NoNode }
        ensures node { k < length self.now.history.weights → IsOk result }
    {
        match self.nodes.get(k as usize) {
            Some(node) => Ok(node.entry(slot)),
            None => Err(StepFault::NoNode),
        }
    }

    /// Returns the log of node `k`: the entries that it learned, up to its first gap. A `None` is a
    /// no-operation.
    ///
    /// Errors: `NoNode`; else `Memory`. Cost: the size of the log; each value is copied once.
    pub fn log(&self, k: u8) -> Result<Vec<Option<V>>, StepFault>
        ensures log { IfOk result (λ entries. entries.items ≡ log_after (world_of V.bytes self.now.history) k) }
        ensures no_node { length self.now.history.weights ≤ k → result ≡ Err NoNode }
        ensures only_memory { k < length self.now.history.weights → IsOkUnless result Memory }
    {
        match self.nodes.get(k as usize) {
            Some(node) => Ok(node.log()?),
            None => Err(StepFault::NoNode),
        }
    }

    /// Returns the packet with this number, counted from 0 in the order of posting. It does not
    /// allocate.
    ///
    /// Errors: `NoPacket`.
    pub fn packet(&self, number: u64) -> Result<&Packet<V>, StepFault>
        ensures found { IfOk result
            (λ packet. slice_get (packets_after (world_of V.bytes self.now.history)) number ≡ Some packet.now) }
        ensures no_packet { (result ≡ Err NoPacket)
            ↔ (slice_get (packets_after (world_of V.bytes self.now.history)) number ≡ None) }
        ensures only_no_packet { IsOkUnless result NoPacket }
    {
        match self.packets.get(number as usize) {
            Some(packet) => Ok(packet),
            None => Err(StepFault::NoPacket),
        }
    }
}

/// Creates the record of a new node for each weight.
fn new_records<V: Value>(alloc: Global, weights: Weights) -> Result<Vec<Record<V>>, AllocError>
    ensures { IfOk result (λ records. kept_parts_of records.items ≡ new_parts weights) }
{
    let mut records = Vec::new(alloc);
    for _node in 0..weights.count() {
        records.push(Record::new(alloc))?;
    }
    Ok(records)
}

/// Creates the nodes that begin with these records, one for each weight, and keeps the records for
/// contracts.
fn begin_nodes<V: Value>(
    alloc: Global,
    weights: Weights,
    records: Vec<Record<V>>,
) -> Result<(Vec<GhostValue<Record<V>>>, Vec<NodeCore<V>>), AllocError>
    requires { length records.items ≡ length weights }
    ensures begins { IfOk result (λ parts. parts_of parts.0.items ≡ kept_parts_of records.items) }
    ensures nodes { IfOk result
        (λ parts. nodes_of parts.1.items ≡ nodes_with weights 0 (kept_parts_of records.items)) }
    ensures weights { OnOk result (IsWeights weights) }
{
    let mut begins = Vec::new(alloc);
    let mut nodes = Vec::new(alloc);
    for stored in records {
        begins.push(GhostValue::of(&stored))?;
        let k = nodes.len() as u8;
        nodes.push(begin_node(alloc, k, weights, stored))?;
    }
    Ok((begins, nodes))
}

/// Creates the node `k` that begins with this record. It does not allocate.
fn begin_node<V: Value>(alloc: Global, k: u8, weights: Weights, stored: Record<V>) -> NodeCore<V>
    requires { k < length weights }
    ensures { result.node ≡ restarted_node k weights stored.kept }
{
    let mut node = NodeCore::new(alloc, k, weights);
    node.commit_reload(stored);
    node
}
