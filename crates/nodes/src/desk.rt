//! Desks: handles to a cluster, on which any thread may make calls.
ghost use Rattle.std.specs.Prelude.{◌≡◌, ◌≤◌, ◌<◌, ◌⊎◌, ℕ, List, Ok, Err, IfOk, IfErr, IsErrAnd};
ghost use Rattle.std.specs.Prelude.{IsOkUnless, OnOk};
ghost use Rattle.net.specs.declared.event.Event.TheVariants.{Offer, Begin, Restart};
ghost use Rattle.net.specs.declared.fault.StepFault.TheVariants.{NoNode, EventsSpent, Memory};
ghost use Rattle.net.specs.declared.fault.StepFault.TheVariants.{Apart, Stopped};
ghost use Rattle.cluster.specs.declared.compare.Ahead.TheVariants.{Same};
ghost use Rattle.nodes.specs.Words.{IsPrefixOf};
ghost use Rattle.nodes.specs.declared.moment.Moment.{Moment};
ghost use Rattle.nodes.specs.Desk.{Happens, IsListed, IsStatus, IsCompared, IsPlayFault};
ghost use Rattle.nodes.specs.Desk.{StaysStopped};

use crate::book::{Front, Naming};
use crate::shared_nodes::SharedNodes;
use cluster::{Ahead, list_on};
use library::{Entry, Listed, Verdict};
use net::{Event, StepFault};
use std::marker::Model;
use std::sync::{Arc, Wait};
use synod::Keep;
use verify_pool::Gate;
use world::Carried;

/// A handle to a cluster, on which any thread may make calls. The calls take the locks, and may
/// wait for them. Contracts see the number of nodes, and what the desk has seen of the history:
/// each call sees at least as much.
#[derive(Drop)]
pub struct Desk<J: Naming, G: Gate, K: Keep<Carried>> {
    pub(crate) shared: Arc<SharedNodes<J, G, K>>,
    pub(crate) front: Front<J>,
}

impl<J: Naming, G: Gate, K: Keep<Carried>> Model for Desk<J, G, K> {
    ghost use Rattle.std.specs.Prelude.{vec_len};
    ghost use Rattle.std.specs.Arc.{arc_value};
    ghost use Rattle.nodes.specs.Desk.{DeskView};

    ghost Value = { DeskView };

    ghost view = { λ d. record { node_count = vec_len (arc_value d.shared).cells; seen = d.front } };
}

impl<J: Naming, G: Gate, K: Keep<Carried>> Desk<J, G, K> {
    /// Offers an entry at node `k`.
    ///
    /// Errors and cost: those of `Switch::play`; `Stopped` once the cluster is stopped; `Apart` if a
    /// lock does not belong to the history.
    pub fn submit<R: Wait>(&mut self, rt: &R, k: u8, entry: Entry) -> Result<(), StepFault>
        ensures seen { IsPrefixOf self.old.seen self.new.seen }
        ensures nodes { self.new.node_count ≡ self.old.node_count }
        ensures offered { OnOk result (Happens self.old.seen self.new.seen (Offer k (record { 0 = entry }))) }
        ensures refused { IfErr result (IsPlayFault self.old.seen self.new.seen (Offer k (record { 0 = entry }))) }
        ensures stopped { StaysStopped self.old.seen result }
    {
        self.play(rt, Event::Offer(k, Carried(entry)))
    }

    /// Begins a ballot at node `k`.
    ///
    /// Errors and cost: those of `submit`.
    pub fn begin<R: Wait>(&mut self, rt: &R, k: u8) -> Result<(), StepFault>
        ensures seen { IsPrefixOf self.old.seen self.new.seen }
        ensures nodes { self.new.node_count ≡ self.old.node_count }
        ensures begun { OnOk result (Happens self.old.seen self.new.seen (Begin k)) }
        ensures refused { IfErr result (IsPlayFault self.old.seen self.new.seen (Begin k)) }
        ensures stopped { StaysStopped self.old.seen result }
    {
        self.play(rt, Event::Begin(k))
    }

    /// Plays an event under the switch's lock, and sends the hints of the packets that it posts.
    #[tactic(auto, using(crate::proofs::PrefixLemmas::prefix_trans))]
    fn play<R: Wait>(&mut self, rt: &R, event: Event<Carried>) -> Result<(), StepFault>
        ensures seen { IsPrefixOf self.old.seen self.new.seen }
        ensures nodes { self.new.node_count ≡ self.old.node_count }
        ensures played { OnOk result (Happens self.old.seen self.new.seen event) }
        ensures refused { IfErr result (IsPlayFault self.old.seen self.new.seen event) }
        ensures stopped { StaysStopped self.old.seen result }
    {
        if self.shared.is_stopped(rt, &mut self.front)? {
            return Err(StepFault::Stopped);
        }
        let hints = {
            let mut shared_switch = self.shared.switch.lock(rt);
            shared_switch.play(self.shared.alloc, &mut self.front, event)?
        };
        self.shared.send(rt, &hints);
        Ok(())
    }

    /// Restarts node `k` from the record in its keep. Before this returns, the node learns the
    /// entries that another node has learned: of those that are up the one with the longest log.
    ///
    /// Errors: `Stopped` once the cluster is stopped; if there is no such node, `EventsSpent` if no
    /// event is left and else `NoNode`; `Apart` if the cell is not that of its node or a lock does
    /// not belong to the history; else those of `cluster::restart_on`. Cost: that of
    /// `cluster::restart_on`, and two events for each entry learned.
    #[tactic(auto, using(crate::proofs::PrefixLemmas::prefix_trans))]
    pub fn restart<R: Wait>(&mut self, rt: &R, k: u8) -> Result<(), StepFault>
        ensures seen { IsPrefixOf self.old.seen self.new.seen }
        ensures nodes { self.new.node_count ≡ self.old.node_count }
        ensures restarted { OnOk result (Happens self.old.seen self.new.seen (Restart k)) }
        ensures refused { k < self.old.node_count
            → IfErr result (IsPlayFault self.old.seen self.new.seen (Restart k)) }
        ensures no_node { self.old.node_count ≤ k
            → IsErrAnd result (λ fault. (fault ≡ Stopped) ⊎ (fault ≡ Apart) ⊎ (fault ≡ EventsSpent) ⊎ (fault ≡ NoNode)) }
        ensures stopped { StaysStopped self.old.seen result }
    {
        if self.shared.is_stopped(rt, &mut self.front)? {
            return Err(StepFault::Stopped);
        }
        let other_count = self.shared.cells.len().saturating_sub(1) as u64;
        let hints = {
            let Ok(lock) = self.shared.cell(k) else {
                return Err(self.shared.switch.lock(rt).missing_node_fault());
            };
            let mut shared_cell = lock.lock(rt);
            let mut shared_switch = self.shared.switch.lock(rt);
            let alloc = self.shared.alloc;
            shared_cell.restart(alloc, &mut self.front, k, &mut shared_switch, other_count)?
        };
        self.shared.learn(rt, &hints);
        self.shared.send(rt, &hints);
        Ok(())
    }

    /// Returns the assertions of node `k`'s library, in order.
    ///
    /// Errors: `NoNode`; else `Apart` if the cell is not that of its node or its lock does not belong
    /// to the history; else `Memory`. Cost: one pass over all statements.
    pub fn list<R: Wait>(&mut self, rt: &R, k: u8) -> Result<Vec<Listed>, StepFault>
        ensures seen { IsPrefixOf self.old.seen self.new.seen }
        ensures nodes { self.new.node_count ≡ self.old.node_count }
        ensures listed { IfOk result (λ list. IsListed self.new.seen k list.items) }
        ensures no_node { self.old.node_count ≤ k → result ≡ Err NoNode }
        ensures faults { k < self.old.node_count → IfErr result (λ fault. (fault ≡ Apart) ⊎ (fault ≡ Memory)) }
    {
        let shared_cell = self.shared.cell(k)?.lock(rt);
        if !shared_cell.look(k, &mut self.front) {
            return Err(StepFault::Apart);
        }
        Ok(list_on(shared_cell.cell())?)
    }

    /// Returns the verdict of node `k`'s library on the author's entry of that serial number, or
    /// `None` if it is not decided there.
    ///
    /// Errors: `NoNode`; else `Apart` if the cell is not that of its node or its lock does not belong
    /// to the history. Cost: that of `Library::status`.
    pub fn status<R: Wait>(
        &mut self,
        rt: &R,
        k: u8,
        author: u64,
        serial: u64,
    ) -> Result<Option<Verdict>, StepFault>
        ensures seen { IsPrefixOf self.old.seen self.new.seen }
        ensures nodes { self.new.node_count ≡ self.old.node_count }
        ensures status { IfOk result (IsStatus self.new.seen k author serial) }
        ensures no_node { self.old.node_count ≤ k → result ≡ Err NoNode }
        ensures only_apart { k < self.old.node_count → IsOkUnless result Apart }
    {
        let shared_cell = self.shared.cell(k)?.lock(rt);
        if !shared_cell.look(k, &mut self.front) {
            return Err(StepFault::Apart);
        }
        Ok(shared_cell.cell().library().status(author, serial))
    }

    /// Returns which of two nodes has the library with more statements, if one has; `Same` if `j`
    /// and `k` are one node.
    ///
    /// Errors: `NoNode`; else, if the nodes differ, `Apart` if one of the two cells does not belong
    /// to the switch, or is not that of its node, if they have two limits on work, or if a lock does
    /// not belong to the history. Cost: the size of the entries that both nodes took over, each
    /// compared with one of the log.
    pub fn compare<R: Wait>(&mut self, rt: &R, j: u8, k: u8) -> Result<Ahead, StepFault>
        ensures seen { IsPrefixOf self.old.seen self.new.seen }
        ensures nodes { self.new.node_count ≡ self.old.node_count }
        ensures compared { IfOk result (λ ahead. (j ≡ k) ⊎ IsCompared self.new.seen j k ahead) }
        ensures no_node { (self.old.node_count ≤ j) ⊎ (self.old.node_count ≤ k) → result ≡ Err NoNode }
        ensures same { j ≡ k → k < self.old.node_count → result ≡ Ok Same }
        ensures only_apart { j < self.old.node_count → k < self.old.node_count → IsOkUnless result Apart }
    {
        let node_count = self.shared.cells.len();
        if usize::from(j) >= node_count || usize::from(k) >= node_count {
            return Err(StepFault::NoNode);
        }
        if j == k {
            Ok(Ahead::Same)
        } else if j < k {
            self.shared.compare(rt, &mut self.front, j, k)
        } else {
            Ok(swapped(self.shared.compare(rt, &mut self.front, k, j)?))
        }
    }
}

/// Returns the answer for the two nodes in the other order.
fn swapped(ahead: Ahead) -> Ahead
    ensures { (history : List Moment) (j k : ℕ) → IsCompared history j k ahead → IsCompared history k j result }
{
    match ahead {
        Ahead::First => Ahead::Second,
        Ahead::Same => Ahead::Same,
        Ahead::Second => Ahead::First,
    }
}
