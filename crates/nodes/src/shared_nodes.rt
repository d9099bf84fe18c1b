//! The locks that node threads and desks share.
ghost use Rattle.std.specs.Prelude.{◌≡◌, ◌≤◌, ◌<◌, ℕ, Err, IsOk, IfOk, IsOkUnless, IsTrue, vec_len};
ghost use Rattle.cluster.specs.Belongs.{Belongs};
ghost use Rattle.net.specs.declared.fault.StepFault.TheVariants.{NoNode, Apart};
ghost use Rattle.nodes.specs.Words.{IsPrefixOf};
ghost use Rattle.nodes.specs.Moments.{IsStoppedAt, IsSwitchAt};
ghost use Rattle.nodes.specs.Runs.{IsRun};
ghost use Rattle.nodes.specs.Shared.{IsNodeCell};
ghost use Rattle.nodes.specs.Desk.{IsCompared};

use crate::book::{Front, Naming};
use crate::shared_cell::SharedCell;
use crate::shared_senders::SharedSenders;
use crate::shared_switch::{Hint, SharedSwitch};
use cluster::{Ahead, belongs, compare_on};
use net::StepFault;
use slots::SLOTS;
use std::alloc::Global;
use std::sync::{Arc, Mutex, Wait};
use std::thread::Threads;
use synod::Keep;
use verify_pool::{Gate, LightGate, Place, PoolSize};
use world::Carried;

/// The state that the node threads and desks of a cluster share, under locks. A node's lock is
/// taken before the switch's, and that of a lower node number before that of a higher one; the
/// senders' lock is never taken while the switch's is held. The lock of heavy proofs is taken under
/// one node's lock, and none under it.
#[derive(Drop)]
pub(crate) struct SharedNodes<J: Naming, G: Gate, K: Keep<Carried>> {
    pub alloc: Global,
    pub workers: PoolSize,
    pub gate: Arc<G>,
    pub switch: Mutex<SharedSwitch<J, K>>,
    pub cells: Vec<Mutex<SharedCell<J>>>,
    pub senders: Mutex<SharedSenders<J>>,
    /// Held by the node that applies an entry with a heavy proof, which needs more memory than a
    /// worker has: one node at a time has that memory.
    pub heavy_proofs: Mutex<()>,
}

impl<J: Naming, G: Gate, K: Keep<Carried>> SharedNodes<J, G, K> {
    /// Sees the history as it is, and returns whether the cluster was stopped.
    ///
    /// Errors: `Apart` if the senders' lock does not belong to the history.
    pub fn is_stopped<R: Wait>(&self, rt: &R, front: &mut Front<J>) -> Result<bool, StepFault>
        ensures seen { IsPrefixOf front.old front.new }
        ensures run { IsRun front.new }
        ensures stopped { IfOk result (IsStoppedAt front.new) }
        ensures only_apart { IsOkUnless result Apart }
    {
        self.senders.lock(rt).is_stopped(front)
    }

    /// Returns the lock of node `k`'s cell, or `NoNode`.
    pub fn cell(&self, k: u8) -> Result<&Mutex<SharedCell<J>>, StepFault>
        ensures found { k < vec_len self.now.cells → IsOk result }
        ensures no_node { vec_len self.now.cells ≤ k → result ≡ Err NoNode }
        ensures only_no_node { IsOkUnless result NoNode }
    {
        match self.cells.get(usize::from(k)) {
            Some(cell) => Ok(cell),
            None => Err(StepFault::NoNode),
        }
    }

    /// Sends each hint into the channel of its node.
    pub fn send<R: Wait>(&self, rt: &R, hints: &[Hint]) {
        self.senders.lock(rt).send(rt, hints);
    }

    /// Delivers packets, given by number, at node `k` one after another, with one commit of its keep,
    /// takes over the new entries of its log, sends the hints of the packets posted, and applies the
    /// entries, unless the next one is postponed (`SharedCell`). If an allocation fails, the entry is
    /// taken over at a later hint, or applied at a later hint at which it is due.
    pub fn handle<R: Threads + Wait + Sync>(&self, rt: &R, k: u8, packets: &[u64])
    where
        G: Sync,
    {
        let Ok(lock) = self.cell(k) else {
            return;
        };
        let mut shared_cell = lock.lock(rt);
        let hints = {
            let mut shared_switch = self.switch.lock(rt);
            let hints = shared_switch.deliver_all(self.alloc, k, packets);
            shared_cell.take_all(&shared_switch);
            hints
        };
        self.send(rt, &hints);
        if shared_cell.is_due_after(packets.len()) {
            self.apply_all(rt, &mut shared_cell, k);
        }
    }

    /// Lets a node that was restarted learn, entry by entry, what another node has learned: of the
    /// nodes that it asks by these hints the one with the longest log. The switch's lock is taken
    /// anew for each entry.
    pub fn learn<R: Wait>(&self, rt: &R, asks: &[Hint]) {
        let mut next = {
            let shared_switch = self.switch.lock(rt);
            shared_switch.best_ask(asks)
        };
        for _entry in 0..SLOTS {
            let Some(ask) = next else {
                break;
            };
            let mut shared_switch = self.switch.lock(rt);
            next = shared_switch.learn(ask);
        }
    }

    /// Applies the entries taken over, and passes the gate before each. Postpones an entry for
    /// which an allocation fails.
    fn apply_all<R: Threads + Wait + Sync>(&self, rt: &R, shared_cell: &mut SharedCell<J>, k: u8)
    where
        G: Sync,
    {
        let gate: &G = &self.gate;
        for _entry in 0..SLOTS {
            if !shared_cell.cell().has_unapplied() {
                break;
            }
            gate.pass(Place::Apply(k));
            if !self.apply_next(rt, shared_cell) {
                shared_cell.postpone();
                break;
            }
            shared_cell.clear_postponement();
        }
    }

    /// Applies the next entry that was taken over, and returns whether that succeeded. An entry
    /// that fails while heavy proofs are kept out is tried once more, under the lock of heavy
    /// proofs.
    fn apply_next<R: Threads + Wait + Sync>(&self, rt: &R, shared_cell: &mut SharedCell<J>) -> bool
    where
        G: Sync,
    {
        let gate: &G = &self.gate;
        if shared_cell.apply_next(rt, self.workers, &LightGate { gate }) {
            return true;
        }
        let _heavy = self.heavy_proofs.lock(rt);
        shared_cell.apply_next(rt, self.workers, gate)
    }

    /// Returns which of two nodes has the library with more statements, if one has. `low` has to be
    /// below `high`: else the call may wait forever.
    ///
    /// Errors: `NoNode`, or `Apart` if one of the two cells is not that of its node or does not
    /// belong to the switch, if they have two limits on work, or if a lock does not belong to the
    /// history.
    pub fn compare<R: Wait>(
        &self,
        rt: &R,
        front: &mut Front<J>,
        low: u8,
        high: u8,
    ) -> Result<Ahead, StepFault>
        ensures seen { IsPrefixOf front.old front.new }
        ensures compared { IfOk result (IsCompared front.new low high) }
        ensures only_apart { low < vec_len self.now.cells → high < vec_len self.now.cells → IsOkUnless result Apart }
    {
        let one = self.cell(low)?.lock(rt);
        let other = self.cell(high)?.lock(rt);
        let shared_switch = self.switch.lock(rt);
        let are_now = are_at(&one, low, &other, high, &shared_switch, front);
        let one_cell = one.cell();
        let other_cell = other.cell();
        let switch = shared_switch.switch();
        if are_now
            && belongs(one_cell, switch)
            && belongs(other_cell, switch)
            && one_cell.work_limit() == other_cell.work_limit()
        {
            Ok(compare_on(one_cell, other_cell, switch))
        } else {
            Err(StepFault::Apart)
        }
    }
}

/// Sees the history as it is, and returns whether the two cells and the switch are as it says at one
/// moment.
fn are_at<J: Naming, K: Keep<Carried>>(
    one: &SharedCell<J>,
    j: u8,
    other: &SharedCell<J>,
    k: u8,
    shared_switch: &SharedSwitch<J, K>,
    front: &mut Front<J>,
) -> bool
    ensures seen { IsPrefixOf front.old front.new }
    ensures one { IsTrue result → IsNodeCell front.new j one.now.cell }
    ensures other { IsTrue result → IsNodeCell front.new k other.now.cell }
    ensures switch { IsTrue result → IsSwitchAt front.new shared_switch.now.switch }
{
    let is_one = one.look(j, front);
    let is_other = is_at(other, k, shared_switch, front);
    let mut later = front.again();
    let is_still = one.look(j, &mut later);
    if !is_one {
        return false;
    }
    if !is_other {
        return false;
    }
    is_still
}

/// Sees the history as it is, and returns whether the cell of node `k` and the switch are as it says
/// at one moment.
pub(crate) fn is_at<J: Naming, K: Keep<Carried>>(
    shared_cell: &SharedCell<J>,
    k: u8,
    shared_switch: &SharedSwitch<J, K>,
    front: &mut Front<J>,
) -> bool
    ensures seen { IsPrefixOf front.old front.new }
    ensures cell { IsTrue result → IsNodeCell front.new k shared_cell.now.cell }
    ensures switch { IsTrue result → IsSwitchAt front.new shared_switch.now.switch }
{
    let is_cell = shared_cell.look(k, front);
    let is_switch = shared_switch.look(front);
    let mut later = front.again();
    let is_still = shared_cell.look(k, &mut later);
    if !is_cell {
        return false;
    }
    if !is_switch {
        return false;
    }
    is_still
}
