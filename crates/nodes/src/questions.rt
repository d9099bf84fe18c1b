//! The calls of a desk that ask for the state of a node or of all nodes, for the history, or any
//! question about a cell.
ghost use Rattle.std.specs.Prelude.{◌≡◌, ◌≤◌, ◌<◌, ◌⊎◌, Err, IfErr, IfOk, IsOkUnless, vec_len};
ghost use Rattle.std.specs.Fn.{FnOnceReturnsAt};
ghost use Rattle.net.specs.declared.fault.StepFault.TheVariants.{Apart, Memory, NoNode};
ghost use Rattle.cluster.specs.Cell.{Cell};
ghost use Rattle.nodes.specs.Words.{IsPrefixOf};
ghost use Rattle.nodes.specs.Runs.{IsRun};
ghost use Rattle.nodes.specs.Shared.{IsNodeCell};
ghost use Rattle.nodes.specs.Questions.{AreNodeStatuses, IsHealth, IsHistory, IsNodeStatus};

use crate::book::Naming;
use crate::desk::Desk;
use crate::shared_nodes::is_at;
use cluster::{NodeCell, ask_on};
use net::{Event, StepFault};
use std::alloc::{AllocError, Global};
use std::sync::Wait;
use synod::{Keep, Value};
use verify_pool::Gate;
use world::{Carried, Health, NodeStatus};

impl<J: Naming, G: Gate, K: Keep<Carried>> Desk<J, G, K> {
    /// Calls `question` on node `k`'s cell, and returns the answer. The node's lock is held
    /// meanwhile, so the node waits: a question should be short, and leave printing until after the
    /// call.
    ///
    /// Errors: `NoNode`; else `Apart` if the cell is not that of its node or its lock does not belong
    /// to the history. Cost: that of the question.
    pub fn ask<R: Wait, T, F: FnOnce(&NodeCell) -> T + Drop>(
        &mut self,
        rt: &R,
        k: u8,
        question: F,
    ) -> Result<T, StepFault>
        requires { F.IsAlwaysCallable question }
        ensures seen { IsPrefixOf self.old.seen self.new.seen }
        ensures nodes { self.new.node_count ≡ self.old.node_count }
        ensures answered { IfOk result (λ answer. (cell : Cell)
            × IsNodeCell self.new.seen k cell × FnOnceReturnsAt F.FnOnce question cell answer) }
        ensures no_node { self.old.node_count ≤ k → result ≡ Err NoNode }
        ensures only_apart { k < self.old.node_count → IsOkUnless result Apart }
    {
        let shared_cell = self.shared.cell(k)?.lock(rt);
        if !shared_cell.look(k, &mut self.front) {
            return Err(StepFault::Apart);
        }
        ask_on(shared_cell.cell(), k, question)
    }

    /// Returns the state of node `k` and of its cell, at one moment. The cell and the switch are
    /// locked meanwhile. It does not allocate.
    ///
    /// Errors: `NoNode`; else `Apart` if the cell is not that of its node, or applied more than the
    /// node learned, or a lock does not belong to the history.
    pub fn node_status<R: Wait>(&mut self, rt: &R, k: u8) -> Result<NodeStatus, StepFault>
        ensures seen { IsPrefixOf self.old.seen self.new.seen }
        ensures nodes { self.new.node_count ≡ self.old.node_count }
        ensures node_status { IfOk result (IsNodeStatus self.new.seen k) }
        ensures no_node { self.old.node_count ≤ k → result ≡ Err NoNode }
        ensures faults { IfErr result (λ fault. (fault ≡ NoNode) ⊎ (fault ≡ Apart)) }
    {
        let shared_cell = self.shared.cell(k)?.lock(rt);
        let shared_switch = self.shared.switch.lock(rt);
        if !is_at(&shared_cell, k, &shared_switch, &mut self.front) {
            return Err(StepFault::Apart);
        }
        let switch = shared_switch.switch();
        let state = switch.state(k)?;
        let applied = shared_cell.cell().applied();
        if applied > state.log_len {
            return Err(StepFault::Apart);
        }
        Ok(NodeStatus {
            state,
            applied,
            is_down: switch.is_down(Some(k)),
        })
    }

    /// Returns the state of each node and of its cell, and how many events are taken. The locks are
    /// taken node by node, as by `node_status`.
    ///
    /// Errors: `Apart` as in `node_status`; else `Memory`.
    #[tactic(auto, using(crate::proofs::PrefixLemmas::prefix_trans))]
    pub fn health<R: Wait>(&mut self, rt: &R) -> Result<Health, StepFault>
        ensures seen { IsPrefixOf self.old.seen self.new.seen }
        ensures nodes { self.new.node_count ≡ self.old.node_count }
        ensures health { IfOk result (IsHealth self.old.seen self.new.seen self.old.node_count) }
    {
        let nodes = self.node_statuses(rt)?;
        let shared_switch = self.shared.switch.lock(rt);
        if !shared_switch.look(&mut self.front) {
            return Err(StepFault::Apart);
        }
        let switch = shared_switch.switch();
        Ok(Health {
            nodes,
            events: switch.history().len() as u64,
            event_limit: switch.event_limit(),
        })
    }

    /// Returns the state of each node and of its cell.
    #[tactic(auto, using(crate::proofs::PrefixLemmas::prefix_trans))]
    fn node_statuses<R: Wait>(&mut self, rt: &R) -> Result<Vec<NodeStatus>, StepFault>
        ensures seen { IsPrefixOf self.old.seen self.new.seen }
        ensures nodes { self.new.node_count ≡ self.old.node_count }
        ensures count { IfOk result (λ statuses. vec_len statuses ≡ self.old.node_count) }
        ensures statuses { IfOk result (λ statuses. AreNodeStatuses self.old.seen self.new.seen 0 statuses.items) }
    {
        let mut statuses = Vec::new(self.shared.alloc);
        // A cluster has at most 9 nodes, so the number of each is an u8.
        for index in 0..self.shared.cells.len() {
            let Ok(k) = u8::try_from(index) else {
                return Err(StepFault::NoNode);
            };
            let status = self.node_status(rt, k)?;
            let Ok(()) = statuses.push(status) else {
                return Err(StepFault::Memory);
            };
        }
        Ok(statuses)
    }

    /// Returns the events of the history so far. The switch is locked while they are copied.
    ///
    /// Errors: `Apart` if the switch's lock does not belong to the history; else `Memory`. Cost: the
    /// number of events and of names of their charters; texts are shared.
    pub fn history<R: Wait>(&mut self, rt: &R) -> Result<Vec<Event<Carried>>, StepFault>
        ensures seen { IsPrefixOf self.old.seen self.new.seen }
        ensures nodes { self.new.node_count ≡ self.old.node_count }
        ensures run { IsRun self.new.seen }
        ensures history { IfOk result (λ events. IsHistory self.new.seen events.items) }
        ensures faults { IfErr result (λ fault. (fault ≡ Apart) ⊎ (fault ≡ Memory)) }
    {
        let shared_switch = self.shared.switch.lock(rt);
        if !shared_switch.look(&mut self.front) {
            return Err(StepFault::Apart);
        }
        Ok(copy_events(self.shared.alloc, shared_switch.switch().history())?)
    }
}

/// Returns a copy of events.
fn copy_events(alloc: Global, events: &[Event<Carried>]) -> Result<Vec<Event<Carried>>, AllocError>
    ensures { IfOk result (λ copy. copy.items ≡ events.now) }
{
    let mut copy = Vec::with_capacity(alloc, events.len())?;
    for event in events {
        copy.push(copy_event(event)?)?;
    }
    Ok(copy)
}

/// Returns a copy of an event.
fn copy_event(event: &Event<Carried>) -> Result<Event<Carried>, AllocError>
    ensures { IfOk result (λ copy. copy ≡ event.now) }
{
    match event {
        Event::Offer(k, value) => {
            let value = value.copy()?;
            Ok(Event::Offer(*k, value))
        }
        Event::Begin(k) => Ok(Event::Begin(*k)),
        Event::Deliver(number) => Ok(Event::Deliver(*number)),
        Event::Restart(k) => Ok(Event::Restart(*k)),
    }
}
