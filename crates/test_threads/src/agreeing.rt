//! A text submitted at the node that leads is added at each node, and their libraries are then the
//! same, whether node 0 or node 1 leads; a cluster that is stopped still answers questions; a desk
//! works in another thread.
ghost use Rattle.std.specs.Prelude.{◌≡◌};

use crate::three_nodes::{
    EntryKeep, is_added_by_all, same_weathers, start_three_nodes_with_open_gate, text_entry,
};
use cluster::Ahead;
use library::Entry;
use net::StepFault;
use nodes::{Clear, Cluster, Desk, Naming, Opened};
use std::alloc::Global;
use std::marker::Brand;
use std::sync::Wait;
use std::thread;
use std::thread::Threads;
use std::time::Clock;
use synod::Weights;
use verify_pool::{Gate, OpenGate};

/// The node that leads, and the weight of node 0; the other nodes have weight 1.
const LEADERS: [(u8, u8); 3] = [(0, 1), (0, 100), (1, 1)];

#[test]
fn three_threads_agree(rt: HostRuntime) {
    for (leader, first_weight) in LEADERS {
        assert!(rt;
            agree::<Brand, _>(&rt, rt.alloc(), Opened::new(), leader, first_weight) == Ok(true),
            "{leader} leads"
        );
    }
}

/// Returns whether three new nodes, of which node 0 has this weight, serve a text that is submitted
/// at the leader, and then stop, as expected.
fn agree<
    J: Naming + Send + Sync + Drop + 'static,
    R: Threads + Wait + Clock + Copy + Send + Sync + Drop + 'static,
>(rt: &R, alloc: Global, opened: Opened, leader: u8, first_weight: u8) -> Result<bool, StepFault>
    requires { opened ≡ J.book }
{
    let Some(weights) = Weights::new(&[first_weight, 1, 1]) else {
        return Ok(false);
    };
    let weathers = same_weathers(alloc, Clear)?;
    let mut cluster: Cluster<J, OpenGate, EntryKeep> = start_three_nodes_with_open_gate(
        rt, alloc, opened, weights, weathers,
    )?;
    serves_and_stops(rt, alloc, &mut cluster, leader)
}

/// Returns whether the cluster serves a text as expected, and then stops.
fn serves_and_stops<J: Naming, R: Threads + Wait + Clock>(
    rt: &R,
    alloc: Global,
    cluster: &mut Cluster<J, OpenGate, EntryKeep>,
    leader: u8,
) -> Result<bool, StepFault> {
    let mut desk = cluster.desk()?;
    serves_and_stops_at(rt, alloc, cluster, &mut desk, leader)
}

/// Returns the same, with a desk of the cluster.
fn serves_and_stops_at<J: Naming, R: Threads + Wait + Clock>(
    rt: &R,
    alloc: Global,
    cluster: &mut Cluster<J, OpenGate, EntryKeep>,
    desk: &mut Desk<J, OpenGate, EntryKeep>,
    leader: u8,
) -> Result<bool, StepFault> {
    let served = serves(rt, alloc, desk, leader);
    let stopped = stops(rt, alloc, cluster, desk);
    Ok(served? && stopped?)
}

/// Returns whether a text submitted at the leader is added at each node, also after a restart of
/// node 2, and listed at node 1, and there is no node 3.
fn serves<J: Naming, R: Wait + Clock>(
    rt: &R,
    alloc: Global,
    desk: &mut Desk<J, OpenGate, EntryKeep>,
    leader: u8,
) -> Result<bool, StepFault> {
    desk.begin(rt, leader)?;
    desk.submit(rt, leader, text_entry(alloc, 1, b"$c |- $. p $a |- $.")?)?;
    Ok(
        is_added_by_all(rt, desk, 1)?
            && lists_axiom_and_agrees(rt, desk)?
            && has_no_node(rt, alloc, desk, 3)?
            && has_text_after_restart(rt, desk)?,
    )
}

/// Returns whether node 2, which learns the text again from the others after a restart, adds it
/// again.
fn has_text_after_restart<J: Naming, R: Wait + Clock>(
    rt: &R,
    desk: &mut Desk<J, OpenGate, EntryKeep>,
) -> Result<bool, StepFault> {
    desk.restart(rt, 2)?;
    is_added_by_all(rt, desk, 1)
}

/// Stops the cluster. Returns whether each of the first two of its three nodes had taken an event,
/// and it now refuses events and still answers questions.
fn stops<J: Naming, R: Threads + Wait>(
    rt: &R,
    alloc: Global,
    cluster: &mut Cluster<J, OpenGate, EntryKeep>,
    desk: &mut Desk<J, OpenGate, EntryKeep>,
) -> Result<bool, StepFault> {
    let report = cluster.stop(rt)?;
    let handled = match report.handled.as_slice() {
        [first, second, _] => *first > 0 && *second > 0,
        _ => false,
    };
    Ok(handled && has_stopped(rt, alloc, cluster, desk)?)
}

/// Returns whether node 1 lists the axiom p alone, and the libraries of nodes 0 and 2 have the same
/// statements as its own.
fn lists_axiom_and_agrees<J: Naming, R: Wait>(
    rt: &R,
    desk: &mut Desk<J, OpenGate, EntryKeep>,
) -> Result<bool, StepFault> {
    let list = desk.list(rt, 1)?;
    let listed = match list.as_slice() {
        [only] => !only.proved && only.label.as_bytes() == b"p".as_slice(),
        _ => false,
    };
    Ok(listed && desk.compare(rt, 0, 1)? == Ahead::Same && desk.compare(rt, 2, 1)? == Ahead::Same)
}

/// Returns whether `begin`, `submit` and `restart` at node `k` say that there is no such node.
fn has_no_node<J: Naming, R: Wait>(
    rt: &R,
    alloc: Global,
    desk: &mut Desk<J, OpenGate, EntryKeep>,
    k: u8,
) -> Result<bool, StepFault> {
    Ok(
        desk.begin(rt, k) == Err(StepFault::NoNode)
            && desk.submit(rt, k, text_entry(alloc, 1, b"")?) == Err(StepFault::NoNode)
            && desk.restart(rt, k) == Err(StepFault::NoNode),
    )
}

/// Returns whether a stopped cluster refuses events, and still answers questions.
fn has_stopped<J: Naming, R: Threads + Wait>(
    rt: &R,
    alloc: Global,
    cluster: &mut Cluster<J, OpenGate, EntryKeep>,
    desk: &mut Desk<J, OpenGate, EntryKeep>,
) -> Result<bool, StepFault> {
    Ok(
        desk.begin(rt, 0) == Err(StepFault::Stopped)
            && desk.submit(rt, 0, text_entry(alloc, 2, b"")?) == Err(StepFault::Stopped)
            && desk.restart(rt, 0) == Err(StepFault::Stopped)
            && matches!(cluster.stop(rt), Err(StepFault::Stopped))
            && lists_axiom_and_agrees(rt, desk)?,
    )
}

#[test]
fn a_desk_in_another_thread(rt: HostRuntime) {
    assert!(rt; adds_from_thread::<Brand, _>(&rt, rt.alloc(), Opened::new()) == Ok(true));
}

/// Returns whether three nodes add a text that another thread submits.
fn adds_from_thread<
    J: Naming + Send + Sync + Drop + 'static,
    R: Threads + Wait + Clock + Copy + Send + Sync + Drop + 'static,
>(rt: &R, alloc: Global, opened: Opened) -> Result<bool, StepFault>
    requires { opened ≡ J.book }
{
    let weathers = same_weathers(alloc, Clear)?;
    let mut cluster: Cluster<J, OpenGate, EntryKeep> = start_three_nodes_with_open_gate(
        rt,
        alloc,
        opened,
        Weights::equal(3),
        weathers,
    )?;
    adds_and_stops(rt, alloc, &mut cluster)
}

/// Returns whether each node adds a text that another thread submits, and the cluster then stops.
fn adds_and_stops<
    J: Naming + Send + Sync + Drop + 'static,
    R: Threads + Wait + Clock + Copy + Send + Sync + Drop + 'static,
>(rt: &R, alloc: Global, cluster: &mut Cluster<J, OpenGate, EntryKeep>) -> Result<bool, StepFault> {
    let added = adds_text_of_thread(rt, alloc, cluster);
    cluster.stop(rt)?;
    added
}

/// Returns whether each node adds a text that another thread submits.
fn adds_text_of_thread<
    J: Naming + Send + Sync + Drop + 'static,
    R: Threads + Wait + Clock + Copy + Send + Sync + Drop + 'static,
>(rt: &R, alloc: Global, cluster: &Cluster<J, OpenGate, EntryKeep>) -> Result<bool, StepFault> {
    let mut desk = cluster.desk()?;
    let submitted = submit_from_thread(rt, alloc, cluster);
    Ok(submitted == Ok(()) && is_added_by_all(rt, &mut desk, 1)?)
}

/// Has another thread begin a ballot and submit a text, and joins it.
fn submit_from_thread<
    J: Naming + Send + Sync + Drop + 'static,
    R: Threads + Wait + Copy + Send + Sync + Drop + 'static,
>(rt: &R, alloc: Global, cluster: &Cluster<J, OpenGate, EntryKeep>) -> Result<(), StepFault> {
    let entry = text_entry(alloc, 1, b"$c a $.")?;
    let thread_desk = cluster.desk()?;
    let thread_rt = *rt;
    match thread::spawn(rt, move || submit_first(thread_rt, thread_desk, entry)) {
        Ok(thread) => thread.join(rt),
        Err(_) => Err(StepFault::Memory),
    }
}

/// Begins a ballot at node 0 and submits a text there.
fn submit_first<J: Naming + Drop, G: Gate + Drop, R: Wait + Drop>(
    rt: R,
    mut desk: Desk<J, G, EntryKeep>,
    entry: Entry,
) -> Result<(), StepFault> {
    desk.begin(&rt, 0)?;
    desk.submit(&rt, 0, entry)
}
