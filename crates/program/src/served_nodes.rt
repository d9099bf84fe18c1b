//! The nodes that `serve` starts and stops.
ghost use Rattle.std.specs.Prelude.{◌≡◌, length, vec_len, IfOk, IsOkUnless};
ghost use Rattle.net.specs.declared.fault.StepFault.TheVariants.{Memory};

use crate::served_weather::weathers;
use commands::ServeOptions;
use net::StepFault;
use nodes::{Cluster, ClusterSetup, Desk, Naming, Opened, start};
use std::alloc::Global;
use std::sync::{Arc, Wait};
use std::thread::Threads;
use synod::Keep;
use verify_pool::{OpenGate, PoolSize};
use world::Carried;

/// The greatest number of times that a cluster is asked again to stop after a failed allocation.
const MAX_RETRIES: u32 = 1000;

/// The nodes of one process, each with a keep. Contracts see how many they are, and what was seen of
/// their history, which `J` names.
pub type Nodes<J, K> = Cluster<J, OpenGate, K>;

/// A desk of such nodes. Contracts see how many nodes there are, and what the desk has seen of their
/// history.
pub type NodesDesk<J, K> = Desk<J, OpenGate, K>;

/// Starts a node for each weight, with its keep, as the options say, and records what happens in the
/// history that was opened; without a seed the weather is clear. The gate lets each thread pass at
/// once.
///
/// Errors: `Memory` if an allocation fails or a thread cannot be started; then no thread is left
/// running.
pub fn start_nodes<
    J: Naming + Send + Sync + Drop + 'static,
    R: Threads + Wait + Copy + Send + Sync + Drop + 'static,
    K: Keep<Carried> + Send + Drop + 'static,
>(
    rt: &R,
    alloc: Global,
    opened: Opened,
    options: &ServeOptions<'_>,
    keeps: Vec<K>,
) -> Result<Nodes<J, K>, StepFault>
    requires opened { opened ≡ J.book }
    requires keeps { vec_len keeps ≡ length options.now.weights }
    ensures nodes { IfOk result (λ nodes. nodes.node_count ≡ length options.now.weights) }
    ensures only_memory { IsOkUnless result Memory }
{
    let Ok(gate) = Arc::new(alloc, OpenGate) else {
        return Err(StepFault::Memory);
    };
    let weathers = weathers(alloc, options.weights.count(), options.weather_seed)?;
    let setup = ClusterSetup {
        weights: options.weights,
        event_limit: options.event_limit,
        work_limit: options.work_limit,
        workers: PoolSize::new(options.workers.count),
    };
    start(rt, alloc, opened, &setup, gate, weathers, keeps)
}

/// Stops the nodes and joins their threads. If the allocation of their report fails, they are asked
/// again. The clause says that their number stays the same.
///
/// Errors: `Stopped` if they were stopped before; `Memory` if each attempt fails, and then they
/// keep running.
pub fn stop_nodes<J: Naming, R: Threads + Wait, K: Keep<Carried>>(
    rt: &R,
    nodes: &mut Nodes<J, K>,
) -> Result<(), StepFault>
    ensures { nodes.new.node_count ≡ nodes.old.node_count }
{
    for _retry in 0..MAX_RETRIES {
        match nodes.stop(rt) {
            Err(StepFault::Memory) => {}
            Ok(_report) => return Ok(()),
            Err(fault) => return Err(fault),
        }
    }
    nodes.stop(rt)?;
    Ok(())
}
