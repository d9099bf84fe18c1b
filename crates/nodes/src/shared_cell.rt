//! The cell under a node's lock, and the time at which an entry is tried again after a failed
//! allocation.
ghost use Rattle.std.specs.Prelude.{◌≡◌, ◌⊎◌, ◌+◌, true, IfErr, IsTrue, OnOk};
ghost use Rattle.net.specs.declared.event.Event.TheVariants.{Restart};
ghost use Rattle.net.specs.declared.fault.StepFault.TheVariants.{Apart};
ghost use Rattle.nodes.specs.Words.{IsPrefixOf};
ghost use Rattle.nodes.specs.Moments.{count_of};
ghost use Rattle.nodes.specs.Runs.{IsRun};
ghost use Rattle.nodes.specs.Shared.{IsNodeCell, TookOver};
ghost use Rattle.nodes.specs.Desk.{Happens, IsRefusedIn};

use crate::account::Account;
use crate::book::{AsCell, Front, Naming};
use crate::shared_switch::{Hint, SharedSwitch};
use cluster::{NodeCell, Switch, apply_on_with, take_on};
use net::StepFault;
use slots::SLOTS;
use std::alloc::Global;
use std::marker::Model;
use std::thread::Threads;
use synod::Keep;
use verify_pool::{Gate, PoolSize};
use world::Carried;

/// A node's cell, and the account of its lock. An entry for which an allocation failed is tried
/// again at the next packet, and then each time that the number of packets since the failure has
/// doubled, since each try costs as much as the whole entry.
#[derive(Drop)]
pub(crate) struct SharedCell<J: Naming> {
    cell: NodeCell,
    account: Account<J>,
    /// 0 if no allocation failed for the next entry.
    packets_since_failure: u64,
    /// The number of packets at which the entry is tried again; 0 if no allocation failed for it.
    next_try: u64,
}

impl<J: Naming> Model for SharedCell<J> {
    ghost use Rattle.nodes.specs.Shared.{IsSharedCell, SharedCellView};

    ghost Value = { SharedCellView };

    ghost view = { λ s. record { cell = s.cell; account = s.account } };

    ghost invariant = { λ s. IsSharedCell s.cell s.account };
}

impl<J: Naming> SharedCell<J> {
    /// Wraps the cell of node `k`, which is new, and records it. A cell of another node is as one
    /// that was not recorded.
    pub fn new(k: u8, cell: NodeCell, account: Account<J>, front: &mut Front<J>) -> Self
        requires lock { account.lock ≡ 2 + k }
        ensures { IsPrefixOf front.old front.new }
    {
        let mut account = account;
        account.leave_unless(cell.node() == k);
        account.leave_unless(cell.entries().is_empty());
        account.add::<NodeCell, AsCell>(front, &cell);
        SharedCell {
            cell,
            account,
            packets_since_failure: 0,
            next_try: 0,
        }
    }

    /// Returns the cell.
    pub fn cell(&self) -> &NodeCell
        ensures { result.now ≡ self.now.cell }
    {
        &self.cell
    }

    /// Sees the history as it is, and returns whether the cell is that of node `k`, as it says.
    pub fn look(&self, k: u8, front: &mut Front<J>) -> bool
        ensures seen { IsPrefixOf front.old front.new }
        ensures run { IsRun front.new }
        ensures at { IsTrue result → IsNodeCell front.new k self.now.cell }
        ensures count { IsTrue result
            → count_of (2 + k) front.new ≡ count_of (2 + k) self.now.account.history }
    {
        // The clauses of `library` state that it is that of the cell's entries.
        let _library = self.cell.library();
        self.account.look(front) && self.cell.node() == k
    }

    /// Takes over the next entries of the node's log, as far as allocations succeed, and records
    /// the cell.
    pub fn take_all<K: Keep<Carried>>(&mut self, shared_switch: &SharedSwitch<J, K>) {
        if !shared_switch.belongs() {
            return;
        }
        let mut front = shared_switch.front();
        take_entries(&mut self.cell, shared_switch.switch());
        self.account.add::<NodeCell, AsCell>(&mut front, &self.cell);
    }

    /// Applies the next entry that was taken over, records the cell, and returns whether that
    /// entry was applied, or there was none.
    pub fn apply_next<G: Gate + Sync, R: Threads + Sync>(
        &mut self,
        rt: &R,
        workers: PoolSize,
        gate: &G,
    ) -> bool {
        let mut front = self.account.front();
        let is_applied = apply_on_with(rt, &mut self.cell, workers, gate).is_ok();
        self.account.add::<NodeCell, AsCell>(&mut front, &self.cell);
        is_applied
    }

    /// Restarts node `k`, empties its cell, and records both. Returns the hints of
    /// `SharedSwitch::restart`.
    ///
    /// Errors: `Apart` if the cell is not that of its node, or a lock does not belong to the
    /// history; else those of `cluster::restart_on`.
    pub fn restart<K: Keep<Carried>>(
        &mut self,
        alloc: Global,
        front: &mut Front<J>,
        k: u8,
        shared_switch: &mut SharedSwitch<J, K>,
        other_count: u64,
    ) -> Result<Vec<Hint>, StepFault>
        ensures seen { IsPrefixOf front.old front.new }
        ensures played { OnOk result (Happens front.old front.new (Restart k)) }
        ensures refused { IfErr result (λ fault. (fault ≡ Apart) ⊎ IsRefusedIn front.old front.new (Restart k) fault) }
    {
        if self.cell.node() != k {
            return Err(StepFault::Apart);
        }
        self.packets_since_failure = 0;
        self.next_try = 0;
        let answer = shared_switch.restart(alloc, front, &mut self.cell, other_count);
        if !self.account.add::<NodeCell, AsCell>(front, &self.cell) {
            return Err(StepFault::Apart);
        }
        answer
    }

    /// Counts `packet_count` more packets if the next entry is postponed, and returns whether it is
    /// to be tried.
    pub fn is_due_after(&mut self, packet_count: usize) -> bool {
        if self.next_try > 0 {
            self.packets_since_failure = self
                .packets_since_failure
                .saturating_add(packet_count as u64);
        }
        self.packets_since_failure >= self.next_try
    }

    /// Postpones the next entry, for which an allocation failed, until twice as many packets have
    /// arrived.
    pub fn postpone(&mut self) {
        self.next_try = self.packets_since_failure.saturating_mul(2).max(1);
    }

    /// Ends the postponement: the next entry is another one.
    pub fn clear_postponement(&mut self) {
        self.packets_since_failure = 0;
        self.next_try = 0;
    }
}

/// Takes over the next entries of the node's log, as far as allocations succeed.
#[tactic(auto, using(crate::proofs::SharedLemmas::took_then))]
fn take_entries<K: Keep<Carried>>(cell: &mut NodeCell, switch: &Switch<Carried, K>)
    ensures { TookOver switch.now cell.old cell.new }
{
    for _entry in 0..SLOTS {
        if !take_next(cell, switch) {
            break;
        }
    }
}

/// Takes over the next entry of the node's log, and returns whether it did.
fn take_next<K: Keep<Carried>>(cell: &mut NodeCell, switch: &Switch<Carried, K>) -> bool
    ensures { TookOver switch.now cell.old cell.new }
{
    let taken = take_on(cell, switch);
    taken == Ok(true)
}
