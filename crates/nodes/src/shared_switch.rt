//! The switch under its lock, and the hints by which the receivers of its packets learn of them.
ghost use Rattle.std.specs.Prelude.{◌≡◌, ◌⊎◌, ◌<◌, ℕ, Result, true, IfErr, IsTrue, OnOk, vec_len};
ghost use Rattle.net.specs.declared.event.Event.TheVariants.{Deliver, Restart};
ghost use Rattle.net.specs.declared.fault.StepFault.{StepFault};
ghost use Rattle.net.specs.declared.fault.StepFault.TheVariants.{Apart, EventsSpent, NoNode};
ghost use Rattle.cluster.specs.Cell.{new_cell, work_limit_of};
ghost use Rattle.nodes.specs.Words.{IsPrefixOf};
ghost use Rattle.nodes.specs.Moments.{IsSwitchAt, count_of};
ghost use Rattle.nodes.specs.Runs.{IsRun};
ghost use Rattle.nodes.specs.Shared.{GoesOnIn};
ghost use Rattle.nodes.specs.Desk.{DeliversAll, DeliversOneOrTwo, Happens, IsRefusedIn};
ghost use Rattle.switch.specs.Switch.{Plays};
ghost use Rattle.world.specs.Carried.{carried_size};

use crate::account::Account;
use crate::book::{AsSwitch, Front, Naming};
use cluster::{NodeCell, Switch, deliver_on, restart_on};
use net::{Event, StepFault};
use std::alloc::Global;
use std::marker::Model;
use std::mem;
use synod::Keep;
use world::Carried;

/// A hint that a packet was posted: its receiver and its number. The channel of the receiver
/// carries the number alone.
#[derive(Clone, Copy)]
pub(crate) struct Hint {
    pub node: u8,
    pub number: u64,
}

/// The switch, the number of packets posted when its last event was taken, and the account of its
/// lock.
#[derive(Drop)]
pub(crate) struct SharedSwitch<J: Naming, K: Keep<Carried>> {
    switch: Switch<Carried, K>,
    posted: u64,
    account: Account<J>,
}

impl<J: Naming, K: Keep<Carried>> Model for SharedSwitch<J, K> {
    ghost use Rattle.nodes.specs.Shared.{IsSharedSwitch, SharedSwitchView};

    ghost Value = { SharedSwitchView };

    ghost view = { λ s. record { switch = s.switch; account = s.account } };

    ghost invariant = { λ s. IsSharedSwitch s.switch s.account };
}

impl<J: Naming, K: Keep<Carried>> SharedSwitch<J, K> {
    /// Wraps a switch that has posted nothing yet, and records it.
    pub fn new(switch: Switch<Carried, K>, account: Account<J>, front: &mut Front<J>) -> Self
        requires lock { account.lock ≡ 0 }
        requires none { account.belongs ≡ true → count_of 0 account.history ≡ 0 }
        ensures { IsPrefixOf front.old front.new }
    {
        let mut account = account;
        record_switch(&mut account, front, &switch);
        SharedSwitch {
            switch,
            posted: 0,
            account,
        }
    }

    /// Returns the switch.
    pub fn switch(&self) -> &Switch<Carried, K>
        ensures same { result.now ≡ self.now.switch }
        ensures at { self.now.account.belongs ≡ true → IsSwitchAt self.now.account.history self.now.switch }
    {
        &self.switch
    }

    /// Returns what was seen of the history when the switch was last recorded.
    pub fn front(&self) -> Front<J>
        ensures { result ≡ self.now.account.history }
    {
        self.account.front()
    }

    /// Returns whether the switch was recorded whenever it changed.
    pub fn belongs(&self) -> bool
        ensures { result ≡ self.now.account.belongs }
    {
        self.account.belongs()
    }

    /// Sees the history as it is, and returns whether the switch is as it says.
    pub fn look(&self, front: &mut Front<J>) -> bool
        ensures seen { IsPrefixOf front.old front.new }
        ensures run { IsRun front.new }
        ensures at { IsTrue result → IsSwitchAt front.new self.now.switch }
    {
        self.account.look(front)
    }

    /// Plays an event. Returns the hints of the packets that it posts.
    ///
    /// Errors: those of `Switch::play`; `Apart` if the lock does not belong to the history. Cost:
    /// that of the event, and of its hints.
    pub fn play(
        &mut self,
        alloc: Global,
        front: &mut Front<J>,
        event: Event<Carried>,
    ) -> Result<Vec<Hint>, StepFault>
        ensures seen { IsPrefixOf front.old front.new }
        ensures played { OnOk result (Happens front.old front.new event) }
        ensures refused { IfErr result (λ fault. (fault ≡ Apart) ⊎ IsRefusedIn front.old front.new event fault) }
    {
        let count = self.play_event(front, event)?;
        let before = mem::replace(&mut self.posted, count);
        Ok(self.hints(alloc, before, count))
    }

    /// Plays an event, and records the switch. Returns the number of packets posted so far.
    fn play_event(&mut self, front: &mut Front<J>, event: Event<Carried>) -> Result<u64, StepFault>
        ensures seen { IsPrefixOf front.old front.new }
        ensures played { OnOk result (Happens front.old front.new event) }
        ensures refused { IfErr result (λ fault. (fault ≡ Apart) ⊎ IsRefusedIn front.old front.new event fault) }
    {
        if !self.account.look(front) {
            return Err(StepFault::Apart);
        }
        let answer = self.switch.play(event);
        if !record_switch(&mut self.account, front, &self.switch) {
            return Err(StepFault::Apart);
        }
        answer
    }

    /// Restarts the cell's node. Returns the hints of the `other_count` packets by which it asks
    /// the other nodes for the first entry of the log. If the node was down because a store failed,
    /// the packets of its pending event (the one whose store failed) get no hint: they are lost.
    ///
    /// Errors and cost: those of `cluster::restart_on`; `Apart` as in `play`.
    pub fn restart(
        &mut self,
        alloc: Global,
        front: &mut Front<J>,
        cell: &mut NodeCell,
        other_count: u64,
    ) -> Result<Vec<Hint>, StepFault>
        ensures seen { IsPrefixOf front.old front.new }
        ensures cell { (cell.new ≡ cell.old) ⊎ (cell.new ≡ new_cell (work_limit_of cell.old) cell.old.node) }
        ensures played { OnOk result (Happens front.old front.new (Restart cell.old.node)) }
        ensures refused { IfErr result (λ fault. (fault ≡ Apart)
            ⊎ IsRefusedIn front.old front.new (Restart cell.old.node) fault) }
    {
        let count = self.restart_node(front, cell)?;
        self.posted = count;
        Ok(self.hints(alloc, count.saturating_sub(other_count), count))
    }

    /// Restarts the cell's node, and records the switch. Returns the number of packets posted so
    /// far.
    fn restart_node(&mut self, front: &mut Front<J>, cell: &mut NodeCell) -> Result<u64, StepFault>
        ensures seen { IsPrefixOf front.old front.new }
        ensures cell { (cell.new ≡ cell.old) ⊎ (cell.new ≡ new_cell (work_limit_of cell.old) cell.old.node) }
        ensures played { OnOk result (Happens front.old front.new (Restart cell.old.node)) }
        ensures refused { IfErr result (λ fault. (fault ≡ Apart)
            ⊎ IsRefusedIn front.old front.new (Restart cell.old.node) fault) }
    {
        if !self.account.look(front) {
            return Err(StepFault::Apart);
        }
        let answer = restart_on(cell, &mut self.switch);
        if !record_switch(&mut self.account, front, &self.switch) {
            return Err(StepFault::Apart);
        }
        answer
    }

    /// Delivers packets, given by number, at node `k` one after another, with one commit for their
    /// changes, and records the switch. Returns the hints of the packets that these deliveries post;
    /// none if the commit fails, and then these packets are lost. A refused delivery posts nothing.
    pub fn deliver_all(&mut self, alloc: Global, k: u8, packets: &[u64]) -> Vec<Hint>
        ensures { DeliversAll k self.old.switch self.new.switch packets.now (vec_len result) }
    {
        let delivered = self.switch.deliver_all(k, packets);
        let before = mem::replace(&mut self.posted, delivered.posted);
        let mut front = self.account.front();
        record_switch(&mut self.account, &mut front, &self.switch);
        if !delivered.is_committed {
            return Vec::new(alloc);
        }
        self.hints(alloc, before, delivered.posted)
    }

    /// Lets a node learn an entry for which it asks another node by packet `ask`: delivers that
    /// packet, and then the answer, if there is one. Returns the number of the packet by which the
    /// node then asks for the next entry, or `None` if it learned nothing.
    pub fn learn(&mut self, ask: u64) -> Option<u64>
        ensures { DeliversOneOrTwo self.old.switch self.new.switch ask }
    {
        let Some(answer) = self.deliver(ask) else {
            return None;
        };
        self.deliver(answer)
    }

    /// Delivers a packet, and records the switch. Returns the number of the last packet that this
    /// posts, if it posts any.
    fn deliver(&mut self, number: u64) -> Option<u64>
        ensures { (answer : Result ℕ StepFault)
            × Plays carried_size self.old.switch self.new.switch (Deliver number) answer }
    {
        let answer = deliver_on(&mut self.switch, number);
        let mut front = self.account.front();
        record_switch(&mut self.account, &mut front, &self.switch);
        let Ok(count) = answer else {
            return None;
        };
        let before = mem::replace(&mut self.posted, count);
        if count > before {
            Some(count - 1)
        } else {
            None
        }
    }

    /// Returns which of the packets of these hints asks the node that has the longest log of those
    /// that are up, or `None` if all their logs are empty.
    pub fn best_ask(&self, asks: &[Hint]) -> Option<u64> {
        let mut longest = 0;
        let mut best = None;
        for hint in asks {
            let log_len = self.log_len_if_up(hint.node);
            if log_len > longest {
                longest = log_len;
                best = Some(hint.number);
            }
        }
        best
    }

    /// Returns the length of the log of node `k` if it is up, and else 0.
    fn log_len_if_up(&self, k: u8) -> u32 {
        if self.switch.is_down(Some(k)) {
            return 0;
        }
        match self.switch.state(k) {
            Ok(state) => state.log_len,
            Err(_) => 0,
        }
    }

    /// Returns the hints of the packets `from..to`. If an allocation fails, that hint and all after
    /// it are lost.
    fn hints(&self, alloc: Global, from: u64, to: u64) -> Vec<Hint> {
        let mut hints = Vec::new(alloc);
        for number in from..to {
            let Ok(packet) = self.switch.packet(number) else {
                break;
            };
            let node = packet.to;
            if hints.push(Hint { node, number }).is_err() {
                break;
            }
        }
        hints
    }

    /// Returns the fault of an event whose node does not exist.
    pub fn missing_node_fault(&self) -> StepFault
        ensures { (result ≡ EventsSpent) ⊎ (result ≡ NoNode) }
    {
        if self.switch.history().len() as u64 >= self.switch.event_limit() {
            StepFault::EventsSpent
        } else {
            StepFault::NoNode
        }
    }
}

/// Records the switch as it is, and returns whether it did.
fn record_switch<J: Naming, K: Keep<Carried>>(
    account: &mut Account<J>,
    front: &mut Front<J>,
    switch: &Switch<Carried, K>,
) -> bool
    requires lock { account.old.lock ≡ 0 }
    requires goes_on { account.old.belongs ≡ true → GoesOnIn account.old.history switch.now }
    ensures lock { account.new.lock ≡ 0 }
    ensures belongs { result ≡ account.new.belongs }
    ensures seen { IsPrefixOf front.old front.new }
    ensures at { account.new.belongs ≡ true → IsSwitchAt account.new.history switch.now }
    ensures history { account.new.belongs ≡ true → front.new ≡ account.new.history }
{
    // The clauses of `history` state that the events are taken.
    let _history = switch.history();
    account.add::<Switch<Carried, K>, AsSwitch>(front, switch)
}
