//! Plays an event at its node, if that is up or is restarted, or delivers several packets at one
//! node. No other public call changes a switch.
ghost use Rattle.std.specs.Prelude.{◌≡◌, Some, None, true, false, slice_get};
ghost use Rattle.std.specs.Result.{ForOk};
ghost use Rattle.net.specs.KeptPart.{node_of};
ghost use Rattle.switch.specs.Switch.{DeliversInTurn, DeliversOrLeaves, DeliversTogether, EndsGroupAt};
ghost use Rattle.switch.specs.Switch.{IsEffectUnlessDown, Plays, StoreView, is_down_at};
ghost use Rattle.switch.specs.Switch.{pending_on_failure, with_group, world_of};
ghost use Rattle.switch.specs.LogPrefixes.{EventKeepsPrefixes, KeepsPrefixes};

use crate::switch::Switch;
use net::{Event, StepFault};
use synod::{Keep, Value};

/// What a delivery of several packets came to.
#[derive(Clone, Copy, PartialEq, Eq)]
pub struct Delivered {
    /// The number of packets posted so far.
    pub posted: u64,
    /// Whether all changes of the node are committed. If not, the node is down, and what these
    /// deliveries posted must not be seen.
    pub is_committed: bool,
}

impl<V: Value, K: Keep<V>> Switch<V, K> {
    /// Plays an event: its node stages it, stores its change and commits it. A restart starts from
    /// the record that the keep loads; at a node that is down it first stores the change of the
    /// pending event and commits that event. Returns the number of packets posted so far.
    ///
    /// Errors: `Down` if the node is down and the event is not a restart; else the first fault that
    /// the event meets, in the order that the comment of `StepFault` lists; else `Memory`, with
    /// nothing changed, or `Device` if the node's keep failed: the node is then down. A restart of
    /// a node that is down returns `EventsSpent` if fewer than two events are left; after `Memory`
    /// or `Device` the node stays down. A restart of a node whose record could not be loaded at the
    /// start loads it: after `Device` the node stays as it is; else it begins with that record, and
    /// restarts as a node that is up.
    ///
    /// Cost: the step of the node, looking up one packet, and storing and committing one change; at
    /// a restart, loading the record once, or twice if it could not be loaded at the start; at the
    /// restart of a node that is down, also storing the pending change and committing the pending
    /// event.
    pub fn play(&mut self, event: Event<V>) -> Result<u64, StepFault>
        ensures plays { Plays V.bytes self.old self.new event result }
        ensures logs { EventKeepsPrefixes V.bytes event self.old self.new result }
    {
        let is_down = self.is_down(self.net.node_of(&event));
        match event {
            Event::Restart(k) if is_down => self.restart_down(k),
            Event::Restart(k) => self.restart_up(k),
            _ if is_down => Err(StepFault::Down),
            _ => self.step(event),
        }
    }

    /// Plays an event that is not a restart and whose node is up or does not exist.
    fn step(&mut self, event: Event<V>) -> Result<u64, StepFault>
        requires pending { pending_on_failure event ≡ Some event }
        requires up { ForOk (world_of V.bytes self.old)
            (λ world. is_down_at self.old.stores (node_of world event) ≡ false) }
        ensures { ForOk (world_of V.bytes self.old)
            (λ world. IsEffectUnlessDown V.bytes world self.old self.new event result) }
    {
        let staged = self.net.stage(event)?;
        let at = staged.at() as usize;
        let staged = self.stores[at].store(staged)?;
        Ok(self.net.commit(staged))
    }

    /// Delivers packets, given by number, at node `k` one after another, as `play` does, with one
    /// commit for the changes of all of them. A packet that is not addressed to the node is left
    /// out. If the commit fails, the node is down, with no pending event; the deliveries are taken,
    /// and the restart of the node commits their changes first.
    ///
    /// Cost: that of the deliveries, with one commit.
    pub fn deliver_all(&mut self, k: u8, packets: &[u64]) -> Delivered
        ensures delivers { DeliversTogether V.bytes k self.old self.new packets.now result.posted result.is_committed }
        ensures logs { KeepsPrefixes V.bytes self.old self.new }
    {
        self.begin_group(k);
        for number in packets {
            self.deliver_or_leave(k, *number);
        }
        let is_committed = self.end_group(k);
        Delivered {
            posted: self.net.posted(),
            is_committed,
        }
    }

    /// Delivers a packet, if it is addressed to node `k`.
    fn deliver_or_leave(&mut self, k: u8, number: u64)
        ensures delivers { DeliversOrLeaves V.bytes k self.old self.new number }
        ensures logs { KeepsPrefixes V.bytes self.old self.new }
    {
        let event = Event::Deliver(number);
        let Some(node) = self.node_of(&event) else {
            return;
        };
        if node == k {
            let _ = self.play(event);
        }
    }

    /// Begins a group of events at node `k`, if there is such a node.
    fn begin_group(&mut self, k: u8)
        ensures group { self.new ≡ with_group self.old k true }
        ensures logs { KeepsPrefixes V.bytes self.old self.new }
    {
        if (k as usize) < self.stores.len() {
            self.stores[k as usize].begin_group();
        }
    }

    /// Ends the group at node `k`: commits its changes, and returns whether the node is up and all
    /// is committed; true if there is no such node.
    fn end_group(&mut self, k: u8) -> bool
        ensures commits { (view : StoreView V) → slice_get self.old.stores k ≡ Some view
            → EndsGroupAt self.old self.new k view result }
        ensures no_node { slice_get self.old.stores k ≡ None → self.new ≡ self.old }
        ensures logs { KeepsPrefixes V.bytes self.old self.new }
    {
        if k as usize >= self.stores.len() {
            return true;
        }
        self.stores[k as usize].end_group()
    }
}
