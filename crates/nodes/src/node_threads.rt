//! The threads of the nodes, from start to stop.
ghost use Rattle.std.specs.Prelude.{◌≡◌, ◌⊎◌, ◌-◌, length, true, vec_len, IfOk, IfErr, IsOkUnless, OnOk};
ghost use Rattle.std.specs.Prelude.{IsTrue};
ghost use Rattle.std.specs.Arc.{arc_value};
ghost use Rattle.net.specs.declared.fault.StepFault.TheVariants.{Apart, Memory, Stopped};
ghost use Rattle.nodes.specs.Words.{IsPrefixOf};
ghost use Rattle.nodes.specs.Moments.{IsStoppedAt, lock_count};
ghost use Rattle.nodes.specs.Desk.{StaysStopped};
ghost use Rattle.nodes.specs.Report.{IsReportIn};

use crate::account::Account;
use crate::book::{Front, Naming, Opened};
use crate::desk::Desk;
use crate::node_loop::run_node;
use crate::report::{Report, count_events};
use crate::shared_cell::SharedCell;
use crate::shared_nodes::SharedNodes;
use crate::shared_senders::SharedSenders;
use crate::shared_switch::SharedSwitch;
use crate::weather::Weather;
use cluster::{NodeCell, resume_cells};
use crossbeam_channel::{Receiver, Sender};
use logbook::Pens;
use net::StepFault;
use std::alloc::{AllocError, Global};
use std::marker::Model;
use std::sync::{Arc, Mutex, Wait};
use std::thread::{JoinHandle, Threads};
use std::{mem, thread};
use synod::{Keep, Weights};
use verify_pool::{Gate, PoolSize};
use world::Carried;

/// A running cluster: the threads of its nodes. It cannot be sent to another thread. If it is
/// dropped without `stop`, the threads stay blocked. Contracts see the number of nodes, and what
/// was seen of the history.
#[derive(Drop)]
pub struct Cluster<J: Naming, G: Gate, K: Keep<Carried>> {
    alloc: Global,
    node_count: u8,
    shared: Arc<SharedNodes<J, G, K>>,
    front: Front<J>,
    threads: Vec<JoinHandle<()>>,
}

impl<J: Naming, G: Gate, K: Keep<Carried>> Model for Cluster<J, G, K> {
    ghost use Rattle.std.specs.Prelude.{◌≡◌, vec_len};
    ghost use Rattle.std.specs.Arc.{arc_value};
    ghost use Rattle.nodes.specs.Desk.{DeskView};

    ghost Value = { DeskView };

    ghost view = { λ c. record { node_count = c.node_count; seen = c.front } };

    ghost invariant = { λ c. vec_len (arc_value c.shared).cells ≡ c.node_count };
}

/// What is fixed when the nodes of a cluster are started.
#[derive(Clone, Copy)]
pub struct ClusterSetup {
    pub weights: Weights,
    /// The number of events that the nodes take.
    pub event_limit: u64,
    /// The greatest work that an entry may count in the nodes' libraries, if there is a limit.
    pub work_limit: Option<u64>,
    /// How many threads check the proofs of each entry that a node applies.
    pub workers: PoolSize,
}

/// Starts the nodes' threads: for each weight a node that begins with the record of its keep, and
/// its weather. A node whose record cannot be loaded is down until a restart loads it. A thread
/// passes `gate` before it applies an entry and before it checks a proof. What happens is recorded
/// in the history that was opened, which `J` names.
///
/// Errors: `Memory`, if an allocation fails or a thread cannot be started; the threads that were
/// started have then ended.
pub fn start<
    J: Naming + Send + Sync + Drop + 'static,
    G: Gate + Send + Sync + Drop + 'static,
    W: Weather + Send + Drop + 'static,
    K: Keep<Carried> + Send + Drop + 'static,
    R: Threads + Wait + Copy + Send + Sync + Drop + 'static,
>(
    rt: &R,
    alloc: Global,
    opened: Opened,
    setup: &ClusterSetup,
    gate: Arc<G>,
    weathers: Vec<W>,
    keeps: Vec<K>,
) -> Result<Cluster<J, G, K>, StepFault>
    requires opened { opened ≡ J.book }
    requires weathers { length weathers.items ≡ length setup.now.weights }
    requires keeps { length keeps.items ≡ length setup.now.weights }
    ensures nodes { IfOk result (λ cluster. cluster.node_count ≡ length setup.now.weights) }
    ensures only_memory { IsOkUnless result Memory }
{
    let (shared, front, receivers) = share(alloc, opened, setup, gate, keeps)?;
    let mut cluster = Cluster {
        alloc,
        node_count: setup.weights.count(),
        shared,
        front,
        threads: Vec::new(alloc),
    };
    match cluster.start_threads(rt, weathers, receivers) {
        Ok(()) => Ok(cluster),
        Err(_) => {
            cluster.join_threads(rt);
            Err(StepFault::Memory)
        }
    }
}

/// What threads and desks share, what was seen of the history, and the receiving ends of the nodes'
/// channels.
type SharedParts<J, G, K> = (Arc<SharedNodes<J, G, K>>, Front<J>, Vec<Receiver<u64>>);

/// Creates the locks that threads and desks share, and the receiving ends of the nodes' channels.
fn share<J: Naming, G: Gate + Drop, K: Keep<Carried>>(
    alloc: Global,
    opened: Opened,
    setup: &ClusterSetup,
    gate: Arc<G>,
    keeps: Vec<K>,
) -> Result<SharedParts<J, G, K>, StepFault>
    requires opened { opened ≡ J.book }
    requires keeps { length keeps.items ≡ length setup.now.weights }
    ensures cells { IfOk result (λ parts. vec_len (arc_value parts.0).cells ≡ length setup.now.weights) }
    ensures only_memory { IsOkUnless result Memory }
{
    let node_count = setup.weights.count();
    let (switch, cells) = resume_cells(
        alloc,
        setup.weights,
        setup.event_limit,
        setup.work_limit,
        keeps,
    )?;
    let (senders, receivers) = channels(alloc, node_count)?;
    let (mut front, mut pens) = opened.named::<J>();
    let account = Account::open(&mut pens, &front);
    let shared_switch = SharedSwitch::new(switch, account, &mut front);
    let account = Account::open(&mut pens, &front);
    let shared_senders = SharedSenders::new(senders, account);
    let shared_nodes = SharedNodes {
        alloc,
        workers: setup.workers,
        gate,
        switch: Mutex::new(shared_switch),
        cells: locks(alloc, node_count, cells, pens, &mut front)?,
        senders: Mutex::new(shared_senders),
        heavy_proofs: Mutex::new(()),
    };
    match Arc::new(alloc, shared_nodes) {
        Ok(shared) => Ok((shared, front, receivers)),
        Err(_) => Err(StepFault::Memory),
    }
}

/// Creates a lock for each cell.
fn locks<J: Naming>(
    alloc: Global,
    node_count: u8,
    cells: Vec<NodeCell>,
    pens: Pens,
    front: &mut Front<J>,
) -> Result<Vec<Mutex<SharedCell<J>>>, AllocError>
    requires cells { vec_len cells ≡ node_count }
    requires pens { (pens.book ≡ J.book) × (pens.next ≡ 2) × (pens.left ≡ lock_count - 2) }
    ensures { IfOk result (λ locks. vec_len locks ≡ node_count) }
{
    let mut cells = cells;
    let mut pens = pens;
    let mut locks = Vec::new(alloc);
    for k in 0..node_count {
        let account = Account::open(&mut pens, front);
        let cell = cells.remove(0);
        locks.push(Mutex::new(SharedCell::new(k, cell, account, front)))?;
    }
    Ok(locks)
}

/// Creates a channel for each of `node_count` nodes.
fn channels(
    alloc: Global,
    node_count: u8,
) -> Result<(Vec<Sender<u64>>, Vec<Receiver<u64>>), AllocError> {
    let mut senders = Vec::new(alloc);
    let mut receivers = Vec::new(alloc);
    for _node in 0..node_count {
        let (sender, receiver) = crossbeam_channel::unbounded(alloc)?;
        senders.push(sender)?;
        receivers.push(receiver)?;
    }
    Ok((senders, receivers))
}

impl<J: Naming, G: Gate, K: Keep<Carried>> Cluster<J, G, K> {
    /// Starts the thread of node `k`.
    ///
    /// Errors: an allocation fails or no thread can be started; no thread is added then.
    fn start_thread<
        W: Weather + Send + Drop + 'static,
        R: Threads + Wait + Copy + Send + Sync + Drop + 'static,
    >(&mut self, rt: &R, k: u8, weather: W, receiver: Receiver<u64>) -> Result<(), AllocError>
    where
        J: Send + Sync + Drop + 'static,
        G: Send + Sync + Drop + 'static,
        K: Send + Drop + 'static,
        ensures { self.new ≡ self.old }
    {
        self.threads.reserve(1)?;
        let shared = Arc::try_clone(&self.shared)?;
        let thread_rt = *rt;
        let handle = thread::spawn(
            rt,
            move || run_node(thread_rt, shared, k, weather, receiver),
        )?;
        self.threads.push_reserved(handle);
        Ok(())
    }

    /// Starts each node's thread.
    fn start_threads<
        W: Weather + Send + Drop + 'static,
        R: Threads + Wait + Copy + Send + Sync + Drop + 'static,
    >(&mut self, rt: &R, weathers: Vec<W>, receivers: Vec<Receiver<u64>>) -> Result<(), AllocError>
    where
        J: Send + Sync + Drop + 'static,
        G: Send + Sync + Drop + 'static,
        K: Send + Drop + 'static,
        ensures { self.new ≡ self.old }
    {
        for (k, (weather, receiver)) in (0..self.node_count).zip(
            weathers.into_iter().zip(receivers),
        ) {
            self.start_thread(rt, k, weather, receiver)?;
        }
        Ok(())
    }

    /// Creates a desk of the cluster, for any thread. It has seen what the cluster has seen.
    ///
    /// Errors: there are too many desks.
    pub fn desk(&self) -> Result<Desk<J, G, K>, AllocError>
        ensures { IfOk result (λ desk. desk ≡ self.now) }
    {
        let shared = Arc::try_clone(&self.shared)?;
        let front = self.front.again();
        Ok(Desk { shared, front })
    }

    /// Closes the channels, so that each thread ends, joins the threads, and returns whether it was
    /// recorded that the cluster is stopped. It does not allocate.
    fn join_threads<R: Threads + Wait>(&mut self, rt: &R) -> bool
        ensures seen { IsPrefixOf self.old.seen self.new.seen }
        ensures nodes { self.new.node_count ≡ self.old.node_count }
        ensures stopped { IsTrue result → IsStoppedAt self.new.seen true }
    {
        let is_recorded = {
            let mut senders = self.shared.senders.lock(rt);
            senders.stop(&mut self.front)
        };
        let threads = mem::replace(&mut self.threads, Vec::new(self.alloc));
        for thread in threads {
            thread.join(rt);
        }
        is_recorded
    }

    /// Closes the channels, joins the threads, and counts each node's events.
    ///
    /// Errors: `Stopped` if the cluster was stopped before; else `Memory`, and the cluster keeps
    /// running; `Apart` if a lock does not belong to the history. Cost: one pass over the history.
    #[tactic(auto, using(crate::proofs::PrefixLemmas::prefix_trans))]
    pub fn stop<R: Threads + Wait>(&mut self, rt: &R) -> Result<Report, StepFault>
        ensures seen { IsPrefixOf self.old.seen self.new.seen }
        ensures nodes { self.new.node_count ≡ self.old.node_count }
        ensures report { IfOk result (λ report. IsReportIn self.new.seen self.old.node_count report.handled.items) }
        ensures ended { OnOk result (IsStoppedAt self.new.seen true) }
        ensures faults { IfErr result (λ fault. ((fault ≡ Stopped) × IsStoppedAt self.new.seen true)
            ⊎ (fault ≡ Memory) ⊎ (fault ≡ Apart)) }
        ensures stopped { StaysStopped self.old.seen result }
    {
        if self.shared.is_stopped(rt, &mut self.front)? {
            return Err(StepFault::Stopped);
        }
        let handled = vec![in self.alloc; 0; usize::from(self.node_count)]?;
        if !self.join_threads(rt) {
            return Err(StepFault::Apart);
        }
        let shared_switch = self.shared.switch.lock(rt);
        if !shared_switch.look(&mut self.front) {
            return Err(StepFault::Apart);
        }
        Ok(count_events(shared_switch.switch(), self.node_count, handled))
    }
}
