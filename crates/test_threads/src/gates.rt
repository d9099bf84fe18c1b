//! Two nodes apply an entry in parallel: each waits at a gate until the other has arrived there. A
//! node's thread passes the gate of its cluster before it applies an entry.
ghost use Rattle.std.specs.Prelude.{◌≡◌};

use crate::three_nodes::{
    EntryKeep, is_added_by_all, same_weathers, start_three_nodes, submit_text,
};
use net::StepFault;
use nodes::{Clear, Cluster, Desk, Naming, Opened};
use std::alloc::Global;
use std::marker::Brand;
use std::sync::atomic::{AtomicBool, Ordering};
use std::sync::{Arc, Wait};
use std::thread;
use std::thread::Threads;
use std::time::Clock;
use synod::Weights;
use verify_pool::{Gate, Place};

/// A gate at which each of the first two nodes waits until the other has arrived.
#[derive(Drop)]
struct Rendezvous {
    first_arrived: AtomicBool,
    second_arrived: AtomicBool,
    /// Whether one of them gave up waiting.
    timed_out: AtomicBool,
}

impl Rendezvous {
    /// Records that `this` node has arrived, and waits until the `other` has, or gives up after a
    /// limited number of turns.
    fn wait_for(&self, this: &AtomicBool, other: &AtomicBool) {
        this.store(true, Ordering::SeqCst);
        for turn in 0..1_000_000_000u32 {
            if other.load(Ordering::SeqCst) {
                return;
            }
            if turn % 1024 == 0 {
                thread::yield_now();
            }
        }
        self.timed_out.store(true, Ordering::SeqCst);
    }
}

impl Gate for Rendezvous {
    fn pass(&self, place: Place) {
        // `Place::Apply(k)`: the thread of node `k` is about to apply an entry.
        match place {
            Place::Apply(0) => self.wait_for(&self.first_arrived, &self.second_arrived),
            Place::Apply(1) => self.wait_for(&self.second_arrived, &self.first_arrived),
            _ => {}
        }
    }
}

#[test]
fn gate_two_nodes(rt: HostRuntime) {
    assert!(rt; two_nodes_wait::<Brand, _>(&rt, rt.alloc(), Opened::new()) == Ok(true));
}

/// Returns whether each of three nodes adds a text, and neither of the first two, which wait for
/// each other at the gate, gives up waiting.
fn two_nodes_wait<
    J: Naming + Send + Sync + Drop + 'static,
    R: Threads + Wait + Clock + Copy + Send + Sync + Drop + 'static,
>(rt: &R, alloc: Global, opened: Opened) -> Result<bool, StepFault>
    requires { opened ≡ J.book }
{
    let rendezvous = Rendezvous {
        first_arrived: AtomicBool::new(false),
        second_arrived: AtomicBool::new(false),
        timed_out: AtomicBool::new(false),
    };
    let Ok(gate) = Arc::new(alloc, rendezvous) else {
        return Err(StepFault::Memory);
    };
    let added = three_nodes_add::<J, R>(rt, alloc, opened, Arc::try_clone(&gate)?);
    Ok(added? && !gate.timed_out.load(Ordering::SeqCst))
}

/// Returns whether three nodes with this gate add a text.
fn three_nodes_add<
    J: Naming + Send + Sync + Drop + 'static,
    R: Threads + Wait + Clock + Copy + Send + Sync + Drop + 'static,
>(rt: &R, alloc: Global, opened: Opened, gate: Arc<Rendezvous>) -> Result<bool, StepFault>
    requires { opened ≡ J.book }
{
    let weathers = same_weathers(alloc, Clear)?;
    let mut cluster: Cluster<J, Rendezvous, EntryKeep> = start_three_nodes(
        rt,
        alloc,
        opened,
        Weights::equal(3),
        gate,
        weathers,
    )?;
    let added = adds_one(rt, alloc, &cluster);
    cluster.stop(rt)?;
    added
}

/// Returns whether each node of the cluster adds a text.
fn adds_one<J: Naming, R: Wait + Clock>(
    rt: &R,
    alloc: Global,
    cluster: &Cluster<J, Rendezvous, EntryKeep>,
) -> Result<bool, StepFault> {
    let mut desk = cluster.desk()?;
    adds_at(rt, alloc, &mut desk)
}

/// Returns the same, with a desk of the cluster.
fn adds_at<J: Naming, R: Wait + Clock>(
    rt: &R,
    alloc: Global,
    desk: &mut Desk<J, Rendezvous, EntryKeep>,
) -> Result<bool, StepFault> {
    desk.begin(rt, 0)?;
    submit_text(rt, alloc, desk, 1, b"$c a $.")?;
    is_added_by_all(rt, desk, 1)
}
