//! Helpers that the tests share: three nodes with keeps in memory, texts, and polling of a desk
//! until it answers.
ghost use Rattle.std.specs.Prelude.{◌≡◌, length, IfOk};

use bytes::Bytes;
use cluster::MemoryKeep;
use library::{Entry, Submission, Verdict};
use net::StepFault;
use nodes::{Cluster, ClusterSetup, Desk, Naming, Opened, Weather, start};
use std::alloc::{AllocError, Global};
use std::sync::{Arc, Wait};
use std::thread;
use std::thread::Threads;
use std::time::{Clock, Duration};
use synod::Weights;
use verify_pool::{Gate, OpenGate, PoolSize};
use world::Carried;

/// A keep in memory for values that are entries.
pub type EntryKeep = MemoryKeep<Carried>;

/// Returns the text as an entry of author 7 with this serial number.
pub fn text_entry(alloc: Global, serial: u64, text: &[u8]) -> Result<Entry, AllocError> {
    Ok(Entry::Text(Submission {
        author: 7,
        serial,
        text: Bytes::copy_from_slice(alloc, text)?,
    }))
}

/// Starts three nodes with keeps in memory, each with two workers to check proofs.
pub fn start_three_nodes<
    J: Naming + Send + Sync + Drop + 'static,
    G: Gate + Send + Sync + Drop + 'static,
    W: Weather + Send + Drop + 'static,
    R: Threads + Wait + Copy + Send + Sync + Drop + 'static,
>(
    rt: &R,
    alloc: Global,
    opened: Opened,
    weights: Weights,
    gate: Arc<G>,
    weathers: Vec<W>,
) -> Result<Cluster<J, G, EntryKeep>, StepFault>
    requires opened { opened ≡ J.book }
    requires weights { length weights ≡ 3 }
    requires weathers { length weathers.items ≡ 3 }
{
    let Ok(keeps) = vec![in alloc;
        EntryKeep::new(alloc),
        EntryKeep::new(alloc),
        EntryKeep::new(alloc),
    ] else {
        return Err(StepFault::Memory);
    };
    let setup = ClusterSetup {
        weights,
        event_limit: 1_000_000,
        work_limit: None,
        workers: PoolSize::new(2),
    };
    start(rt, alloc, opened, &setup, gate, weathers, keeps)
}

/// Starts three nodes with these weathers and an open gate.
pub fn start_three_nodes_with_open_gate<
    J: Naming + Send + Sync + Drop + 'static,
    W: Weather + Send + Drop + 'static,
    R: Threads + Wait + Copy + Send + Sync + Drop + 'static,
>(
    rt: &R,
    alloc: Global,
    opened: Opened,
    weights: Weights,
    weathers: Vec<W>,
) -> Result<Cluster<J, OpenGate, EntryKeep>, StepFault>
    requires opened { opened ≡ J.book }
    requires weights { length weights ≡ 3 }
    requires weathers { length weathers.items ≡ 3 }
{
    let Ok(gate) = Arc::new(alloc, OpenGate) else {
        return Err(StepFault::Memory);
    };
    start_three_nodes(rt, alloc, opened, weights, gate, weathers)
}

/// Submits the text at node 0.
pub fn submit_text<J: Naming, G: Gate, R: Wait>(
    rt: &R,
    alloc: Global,
    desk: &mut Desk<J, G, EntryKeep>,
    serial: u64,
    text: &[u8],
) -> Result<(), StepFault> {
    let entry = text_entry(alloc, serial, text)?;
    desk.submit(rt, 0, entry)
}

/// Returns three copies of the weather, one for each node.
pub fn same_weathers<W: Weather + Copy>(alloc: Global, weather: W) -> Result<Vec<W>, AllocError>
    ensures { IfOk result (λ weathers. length weathers.items ≡ 3) }
{
    let mut weathers = Vec::with_capacity(alloc, 3)?;
    weathers.push_reserved(weather);
    weathers.push_reserved(weather);
    weathers.push_reserved(weather);
    Ok(weathers)
}

/// Returns the verdict at node `k` on the text of author 7 with that serial number, or `None` if it
/// is not known after `polls` polls, a millisecond apart.
pub fn polled_verdict<J: Naming, G: Gate, R: Wait + Clock>(
    rt: &R,
    desk: &mut Desk<J, G, EntryKeep>,
    k: u8,
    serial: u64,
    polls: u32,
) -> Result<Option<Verdict>, StepFault> {
    for _poll in 0..polls {
        let status = desk.status(rt, k, 7, serial)?;
        if status.is_some() {
            return Ok(status);
        }
        thread::sleep(rt, Duration::from_millis(1));
    }
    Ok(None)
}

/// How many times a desk is polled for a verdict, once a millisecond: for 20 seconds at least.
pub const MAX_POLLS: u32 = 20_000;

/// Returns whether each node adds the text with that serial number within `MAX_POLLS` polls.
pub fn is_added_by_all<J: Naming, G: Gate, R: Wait + Clock>(
    rt: &R,
    desk: &mut Desk<J, G, EntryKeep>,
    serial: u64,
) -> Result<bool, StepFault> {
    for k in [0, 1, 2] {
        if polled_verdict(rt, desk, k, serial, MAX_POLLS)? != Some(Verdict::Added) {
            return Ok(false);
        }
    }
    Ok(true)
}
