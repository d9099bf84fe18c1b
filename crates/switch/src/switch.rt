//! The switch: a net of nodes and packets, and the store of each node.
ghost use Rattle.std.specs.Prelude.{◌≡◌, ◌<◌, ◌≤◌, Ok, Err, Some, None, [], length, IsOk, IsSome};
ghost use Rattle.std.specs.Prelude.{IfOk, IsOkUnless};
ghost use Rattle.std.specs.List.{AllByRecursion};
ghost use Rattle.std.specs.Result.{ForOk};
ghost use Rattle.slots.specs.declared.slots.TheConstants.{SLOTS};
ghost use Rattle.synod.specs.Record.{new_kept};
ghost use Rattle.net.specs.declared.fault.StepFault.TheVariants.{NoNode, Memory};
ghost use Rattle.net.specs.World.{IsLogEntry};
ghost use Rattle.net.specs.KeptPart.{node_of};
ghost use Rattle.net.specs.History.{kept_parts_of};
ghost use Rattle.net.specs.World.{new_parts};
ghost use Rattle.switch.specs.Switch.{AreStores, AreResumedStores, IsResumed, IsPacketResult};
ghost use Rattle.switch.specs.Switch.{UnloadedAreIdle};
ghost use Rattle.switch.specs.Switch.{is_down_at, is_unloaded_at, new_views, new_stores, views_of};
ghost use Rattle.switch.specs.Switch.{world_of};

use crate::node_store::NodeStore;
use net::{Event, Net, StepFault};
use std::alloc::{AllocError, Global};
use std::marker::Model;
use synod::{Keep, Packet, Record, Value, Weights};

/// The nodes of one replicated log, their packets and their stores. Contracts see the weights, the
/// limit on events, what the nodes began with, the history and, for each node, the record that its
/// keep would load, how many calls of the keep failed, and whether the node is up, down with the
/// pending event, if there is one, or unloaded.
#[derive(Drop)]
pub struct Switch<V: Value, K: Keep<V>> {
    pub(crate) net: Net<V>,
    pub(crate) stores: Vec<NodeStore<V, K>>,
}

impl<V: Value, K: Keep<V>> Model for Switch<V, K> {
    ghost use Rattle.switch.specs.Switch.{SwitchView, IsSwitch, views_of};

    ghost Value = { SwitchView V };

    ghost view = { λ s. record {
      weights = s.net.history.weights;
      event_limit = s.net.history.event_limit;
      begins = s.net.history.begins;
      history = s.net.history.events;
      stores = views_of s.stores.items;
    } };

    ghost invariant = { λ s. IsSwitch V.bytes s.net s.stores.items };
}

impl<V: Value, K: Keep<V>> Switch<V, K> {
    /// Creates new nodes with their keeps, one for each weight, before any event. The switch takes
    /// at most `event_limit` events.
    ///
    /// Errors: `Memory`.
    pub fn new(
        alloc: Global,
        weights: Weights,
        event_limit: u64,
        keeps: Vec<K>,
    ) -> Result<Self, StepFault>
        requires count { length keeps.items ≡ length weights }
        requires new { AllByRecursion (λ keep. K.kept keep ≡ new_kept) keeps.items }
        ensures new { IfOk result
            (λ switch. switch
            ≡ record {
              weights = weights;
              event_limit = event_limit;
              begins = new_parts weights;
              history = [];
              stores = new_views K.failures keeps.items;
            }) }
        ensures only_memory { IsOkUnless result Memory }
    {
        let net = Net::new(alloc, weights, event_limit)?;
        let stores = new_stores(alloc, keeps)?;
        Ok(Switch { net, stores })
    }

    /// Creates nodes that begin with the records of their keeps, one for each weight, before any
    /// event. The switch takes at most `event_limit` events. A node whose record cannot be loaded
    /// is down; no event happens at it until a restart loads the record.
    ///
    /// Errors: `Memory`. Cost: loading each record.
    pub fn resume(
        alloc: Global,
        weights: Weights,
        event_limit: u64,
        keeps: Vec<K>,
    ) -> Result<Self, StepFault>
        requires { length keeps.items ≡ length weights }
        ensures resumed { IfOk result (IsResumed K.kept K.failures weights event_limit keeps.items) }
        ensures only_memory { IsOkUnless result Memory }
    {
        let (records, stores) = resume_stores(alloc, keeps)?;
        let net = Net::resume(alloc, weights, event_limit, records)?;
        Ok(Switch { net, stores })
    }

    /// Returns whether the node exists and its record could not be loaded at the start.
    pub fn is_unloaded(&self, k: u8) -> bool
        ensures { result ≡ is_unloaded_at self.now.stores k }
    {
        match self.stores.get(k as usize) {
            Some(store) => store.is_unloaded(),
            None => false,
        }
    }

    /// Returns whether the node exists and is down.
    pub fn is_down(&self, node: Option<u8>) -> bool
        ensures { result ≡ is_down_at self.now.stores node }
    {
        let Some(k) = node else {
            return false;
        };
        match self.stores.get(k as usize) {
            Some(store) => store.is_down(),
            None => false,
        }
    }

    /// Returns entry `slot` of the log of node `k`, if it has one, or `NoNode` if there is no such
    /// node. An entry that is itself `None` is a no-operation. Does not allocate.
    pub fn entry(&self, k: u8, slot: u32) -> Result<Option<&Option<V>>, StepFault>
        ensures entry { IfOk result (IsLogEntry (world_of V.bytes self.now) k slot) }
        ensures below { IfOk result (λ found. IsSome found → slot < SLOTS) }
        ensures no_node { length self.now.stores ≤ k → result ≡ Err NoNode }
        ensures node { k < length self.now.stores → IsOk result }
        ensures history_taken { IsOk (world_of V.bytes self.now) }
    {
        self.net.entry(k, slot)
    }

    /// Returns the events taken, in order.
    ///
    /// The nodes and the packets are those of the world after these events. The record of each keep
    /// is the kept part of its node; while the node is down, the record may instead be that kept
    /// part with the change of the pending event made. Nothing happened at a node that is unloaded.
    pub fn history(&self) -> &[Event<V>]
        ensures history { result.now ≡ self.now.history }
        ensures few { length result.now ≤ self.now.event_limit }
        ensures history_taken { IsOk (world_of V.bytes self.now) }
        ensures stores { ForOk (world_of V.bytes self.now) (λ world. AreStores V.bytes world self.now.stores) }
        ensures idle { UnloadedAreIdle V.bytes self.now }
    {
        self.net.history()
    }

    /// Returns the number of events that the switch takes.
    pub fn event_limit(&self) -> u64
        ensures { result ≡ self.now.event_limit }
    {
        self.net.event_limit()
    }

    /// Returns the node of an event: for a delivery the receiver of the packet, or `None` if there
    /// is no such packet.
    pub fn node_of(&self, event: &Event<V>) -> Option<u8>
        ensures node { ForOk (world_of V.bytes self.now) (λ world. result ≡ node_of world event.now) }
        ensures history_taken { IsOk (world_of V.bytes self.now) }
    {
        self.net.node_of(event)
    }

    /// Returns the packet with a number, from 0 in the order of posting, or `NoPacket`. It does not
    /// allocate.
    pub fn packet(&self, number: u64) -> Result<&Packet<V>, StepFault>
        ensures history_taken { IsOk (world_of V.bytes self.now) }
        ensures found { ForOk (world_of V.bytes self.now) (λ world. IsPacketResult world number result) }
    {
        self.net.packet(number)
    }
}

/// Creates the stores of new nodes, with their keeps.
fn new_stores<V: Value, K: Keep<V>>(
    alloc: Global,
    keeps: Vec<K>,
) -> Result<Vec<NodeStore<V, K>>, AllocError>
    requires { AllByRecursion (λ keep. K.kept keep ≡ new_kept) keeps.items }
    ensures { IfOk result (λ stores. stores.items ≡ new_stores K.kept K.failures keeps.items) }
{
    let mut stores = Vec::new(alloc);
    for keep in keeps {
        stores.push(NodeStore::new(keep))?;
    }
    Ok(stores)
}

/// Creates the stores of nodes that begin with the records of their keeps, and loads these records.
fn resume_stores<V: Value, K: Keep<V>>(
    alloc: Global,
    keeps: Vec<K>,
) -> Result<(Vec<Record<V>>, Vec<NodeStore<V, K>>), AllocError>
    ensures { IfOk result
        (λ parts. AreResumedStores K.kept K.failures keeps.items
        (kept_parts_of parts.0.items) (views_of parts.1.items)) }
{
    let mut records = Vec::new(alloc);
    let mut stores = Vec::new(alloc);
    for keep in keeps {
        let (store, record) = NodeStore::resume(alloc, keep);
        records.push(record)?;
        stores.push(store)?;
    }
    Ok((records, stores))
}
