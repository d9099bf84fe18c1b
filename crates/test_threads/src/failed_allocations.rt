//! A text is added at node 0 even if one allocation, whichever it is, fails. If the failure ends
//! the first attempt with `Memory`, a second attempt is made, with new nodes. The test makes no
//! allocation fail itself: `bench/failed_allocations` runs it with each of its allocations, or
//! 2,000 evenly among more, failing in turn.
ghost use Rattle.std.specs.Prelude.{◌≡◌};

use crate::three_nodes::{
    EntryKeep, polled_verdict, same_weathers, start_three_nodes_with_open_gate, text_entry,
};
use library::Verdict;
use net::StepFault;
use nodes::{Clear, Cluster, Desk, Naming, Opened};
use std::alloc::Global;
use std::marker::Brand;
use std::sync::Wait;
use std::thread::Threads;
use std::time::Clock;
use synod::Weights;
use verify_pool::{Gate, OpenGate};

/// If an allocation fails, a call of the test returns an error; or a packet is lost, an entry is
/// applied only at a later hint, or a keep fails, and its node is down until it restarts.
#[test]
fn decides_after_a_failed_allocation(rt: HostRuntime) {
    let mut verdict = verdict_of_three_nodes::<Brand, _>(&rt, rt.alloc(), Opened::new());
    if verdict == Err(StepFault::Memory) {
        verdict = verdict_of_three_nodes::<Brand, _>(&rt, rt.alloc(), Opened::new());
    }
    assert!(rt; verdict == Ok(Some(Verdict::Added)));
}

/// Returns the verdict at node 0 of three new nodes, which are stopped afterwards.
fn verdict_of_three_nodes<
    J: Naming + Send + Sync + Drop + 'static,
    R: Threads + Wait + Clock + Copy + Send + Sync + Drop + 'static,
>(rt: &R, alloc: Global, opened: Opened) -> Result<Option<Verdict>, StepFault>
    requires { opened ≡ J.book }
{
    let weathers = same_weathers(alloc, Clear)?;
    let mut cluster: Cluster<J, OpenGate, EntryKeep> = start_three_nodes_with_open_gate(
        rt,
        alloc,
        opened,
        Weights::equal(3),
        weathers,
    )?;
    verdict_before_stop(rt, alloc, &mut cluster)
}

/// Returns the same for the nodes of this cluster. If an allocation fails in `stop`, it is called
/// again.
fn verdict_before_stop<J: Naming, R: Threads + Wait + Clock>(
    rt: &R,
    alloc: Global,
    cluster: &mut Cluster<J, OpenGate, EntryKeep>,
) -> Result<Option<Verdict>, StepFault> {
    let verdict = match cluster.desk() {
        Ok(mut desk) => verdict_at_desk(rt, alloc, &mut desk),
        Err(_) => Err(StepFault::Memory),
    };
    if cluster.stop(rt).is_err() {
        cluster.stop(rt)?;
    }
    verdict
}

/// Returns the verdict at node 0 on a text that is submitted there up to 30 times, or `None` if
/// there is none even then. Node 0 begins a ballot before each submission, since its packets
/// replace those that a failed allocation lost; a node that is down is restarted first.
fn verdict_at_desk<J: Naming, G: Gate, R: Wait + Clock>(
    rt: &R,
    alloc: Global,
    desk: &mut Desk<J, G, EntryKeep>,
) -> Result<Option<Verdict>, StepFault> {
    for _attempt in 0..30u8 {
        if desk.begin(rt, 0) == Err(StepFault::Down) {
            let _restarted = desk.restart(rt, 0);
            let _begun = desk.begin(rt, 0);
        }
        let _offered = desk.submit(rt, 0, text_entry(alloc, 1, b"$c |- $. p $a |- $.")?);
        let verdict = polled_verdict(rt, desk, 0, 1, 200)?;
        if verdict.is_some() {
            return Ok(verdict);
        }
    }
    Ok(None)
}
