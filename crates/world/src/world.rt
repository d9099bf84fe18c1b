//! All nodes, all packets and all libraries, driven by a list of events.
ghost use Rattle.std.specs.Prelude.{◌≡◌, ◌↔◌, ◌≤◌, ◌<◌, None, Some, Ok, Err, length, slice_get};
ghost use Rattle.std.specs.Prelude.{IfOk, IfErr, IfSome, IsSomeAnd, OnOk, OnErr, IsOk, IsOkUnless};
ghost use Rattle.net.specs.World.{packets_after};
ghost use Rattle.net.specs.NodeStates.{state_after};
ghost use Rattle.net.specs.History.{world_of, with_event};
ghost use Rattle.world.specs.Carried.{value_event, carried_size};
ghost use Rattle.world.specs.WorldView.{log_entries, AppliesNext};
ghost use Rattle.net.specs.declared.fault.StepFault.TheVariants.{NoNode, NoPacket, Memory};

use crate::carried::{Carried, entries_of, restarted_node, to_value_event};
use crate::node_library::{NodeLibrary, new_libraries, reset_library};
use library::{Entry, Library, Verdict};
use net::{Event, Net, StepFault};
use std::alloc::Global;
use std::marker::Model;
use synod::{NodeState, Packet, Weights};

/// A world of nodes and their libraries. Contracts see the weights, the limit on events, the events
/// taken, the limit on work, and each node's library with the count of entries applied.
///
/// Source: Lamport, Paxos Made Simple, 2 and 3; the world after a list of events is in
/// `net/specs/World.antt`, what contracts see of it in `specs/WorldView.antt`.
#[derive(Drop)]
pub struct World {
    alloc: Global,
    net: Net<Carried>,
    work_limit: Option<u64>,
    libraries: Vec<NodeLibrary>,
}

impl Model for World {
    ghost use Rattle.world.specs.WorldView.{WorldView, AreLibrariesOfLogs};

    ghost Value = { WorldView };

    ghost view = { λ w. record { history = w.net.history; work_limit = w.work_limit; libraries = w.libraries.items } };

    ghost invariant = { λ w. AreLibrariesOfLogs
        (record { history = w.net.history; work_limit = w.work_limit; libraries = w.libraries.items }) };
}

impl World {
    ghost use Rattle.world.specs.WorldView.{new_world, after_event, next_entry, AreLibrariesOfLogs};
    ghost use Rattle.world.specs.WorldView.{IsApplied};
    ghost use Rattle.world.specs.Headline.{Headline};

    /// Creates a world of new nodes, each with an empty library. It takes at most `event_limit`
    /// events; `work_limit` is the greatest work that an entry may count, if there is a limit.
    ///
    /// Errors: `Memory`. Cost: a constant for each node.
    pub fn new(
        alloc: Global,
        weights: Weights,
        event_limit: u64,
        work_limit: Option<u64>,
    ) -> Result<Self, StepFault>
        ensures new { IfOk result (λ world. world ≡ new_world weights event_limit work_limit) }
        ensures only_memory { IsOkUnless result Memory }
    {
        Ok(World {
            alloc,
            net: Net::new(alloc, weights, event_limit)?,
            work_limit,
            libraries: new_libraries(alloc, work_limit, weights.count())?,
        })
    }

    /// Takes an event. Returns the number of packets posted so far. A restart discards the library
    /// of its node.
    ///
    /// Errors: the first fault that the event meets, or `Memory` if it meets none; the world is
    /// then as before.
    /// Cost: that of `Net::step`; a restart also drops the library of its node.
    pub fn step(&mut self, event: Event<Entry>) -> Result<u64, StepFault>
        ensures taken { OnOk result (self.new ≡ after_event self.old (value_event event)) }
        ensures posted { IfOk result
            (λ count. count ≡ length (packets_after (world_of carried_size self.new.history))) }

        // A fault of the event is returned even if every allocation fails.
        ensures refused { IfErr (world_of carried_size (with_event self.old.history (value_event event)))
            (λ fault. result ≡ Err fault) }
        ensures only_memory { OnOk (world_of carried_size (with_event self.old.history (value_event event)))
            (IsOkUnless result Memory) }
        ensures same { OnErr result (self.new ≡ self.old) }
    {
        let event = to_value_event(event);
        let restarted_node = restarted_node(&event);
        let posted = self.net.step(event)?;
        reset_library(
            self.alloc,
            self.work_limit,
            &mut self.libraries,
            restarted_node,
        );
        Ok(posted)
    }

    /// Applies the next entry of node `k`'s log to its library. Returns `None` if there is no next
    /// entry. Never passes a gap.
    ///
    /// Errors: `NoNode` if there is no such node, else `Memory`; the world is then unchanged.
    /// Cost: that of `Library::apply` on the entry.
    pub fn apply_next(&mut self, k: u8) -> Result<Option<Verdict>, StepFault>
        ensures applied { IfSome (next_entry self.old k)
            (λ entry. IfOk result
            (λ answer. IsSomeAnd answer (λ verdict. IsApplied self.old k entry verdict self.new))) }
        ensures none { k < length self.old.history.weights → next_entry self.old k ≡ None → result ≡ Ok None }
        ensures no_node { length self.old.history.weights ≤ k → result ≡ Err NoNode }
        ensures only_memory { k < length self.old.history.weights → IsOkUnless result Memory }
        ensures same_if_none { next_entry self.old k ≡ None → self.new ≡ self.old }
        ensures same { OnErr result (self.new ≡ self.old) }
    {
        let Some(node_library) = self.libraries.get_mut(k as usize) else {
            return Err(StepFault::NoNode);
        };
        apply_next_of_log(node_library, &self.net, k)
    }

    /// Returns the library of node `k`: that of the first entries of its log, as many as were
    /// applied, under the limit on work. Does not allocate.
    ///
    /// Errors: `NoNode`.
    pub fn library(&self, k: u8) -> Result<&Library, StepFault>
        ensures library { IfOk result
            (λ library. IsSomeAnd (slice_get self.now.libraries k)
            (λ node_library. library.now.replica ≡ node_library.library)) }
        ensures no_node { length self.now.history.weights ≤ k → result ≡ Err NoNode }
        ensures node { k < length self.now.history.weights → IsOk result }
        ensures of_logs { AreLibrariesOfLogs self.now }
    {
        match self.libraries.get(k as usize) {
            Some(node_library) => Ok(node_library.library()),
            None => Err(StepFault::NoNode),
        }
    }

    /// Returns the events taken, in order. None of them meets a fault, and the headline holds of
    /// them.
    pub fn history(&self) -> &[Event<Carried>]
        ensures events { result.now ≡ self.now.history.events }
        ensures few { length self.now.history.events ≤ self.now.history.event_limit }
        ensures headline { Headline self.now.work_limit self.now.history }
    {
        self.net.history()
    }

    /// Returns the log of node `k`: the entries that it learned, up to its first gap.
    ///
    /// Errors: `NoNode`; else `Memory`. Cost: the size of the log; each entry is copied.
    pub fn log(&self, k: u8) -> Result<Vec<Option<Entry>>, StepFault>
        ensures log { IfOk result (λ entries. entries.items ≡ log_entries self.now.history k) }
        ensures no_node { length self.now.history.weights ≤ k → result ≡ Err NoNode }
        ensures only_memory { k < length self.now.history.weights → IsOkUnless result Memory }
    {
        Ok(entries_of(self.alloc, self.net.log(k)?)?)
    }

    /// Returns the state that node `k` reports. Does not allocate.
    ///
    /// Errors: `NoNode`.
    pub fn state(&self, k: u8) -> Result<NodeState, StepFault>
        ensures state { IfOk result (λ state. state_after (world_of carried_size self.now.history) k ≡ Some state) }
        ensures no_node { length self.now.history.weights ≤ k → result ≡ Err NoNode }
        ensures node { k < length self.now.history.weights → IsOk result }
    {
        self.net.state(k)
    }

    /// Returns the number of entries of node `k`'s log that its library applied. Does not allocate.
    ///
    /// Errors: `NoNode`.
    pub fn applied(&self, k: u8) -> Result<u32, StepFault>
        ensures applied { IfOk result
            (λ applied. IsSomeAnd (slice_get self.now.libraries k) (λ node_library. applied ≡ node_library.applied)) }
        ensures no_node { length self.now.history.weights ≤ k → result ≡ Err NoNode }
        ensures node { k < length self.now.history.weights → IsOk result }
    {
        match self.libraries.get(k as usize) {
            Some(node_library) => Ok(node_library.applied()),
            None => Err(StepFault::NoNode),
        }
    }

    /// Returns the packet of that number, from 0 in the order of posting. Does not allocate.
    ///
    /// Errors: `NoPacket`.
    pub fn packet(&self, number: u64) -> Result<&Packet<Carried>, StepFault>
        ensures found { IfOk result
            (λ packet. slice_get (packets_after (world_of carried_size self.now.history)) number ≡ Some packet.now) }
        ensures no_packet { (result ≡ Err NoPacket)
            ↔ (slice_get (packets_after (world_of carried_size self.now.history)) number ≡ None) }
        ensures only_no_packet { IsOkUnless result NoPacket }
    {
        self.net.packet(number)
    }
}

/// Applies the next entry of node `k`'s log to its library.
fn apply_next_of_log(
    node_library: &mut NodeLibrary,
    net: &Net<Carried>,
    k: u8,
) -> Result<Option<Verdict>, StepFault>
    requires { k < length net.now.history.weights }
    ensures { AppliesNext node_library.old node_library.new
        (slice_get (log_entries net.now.history k) node_library.old.applied) result }
{
    let next = net.entry(k, node_library.applied())?;
    node_library.apply_next(next)
}
