//! The thread of a node.
use crate::book::Naming;
use crate::shared_nodes::SharedNodes;
use crate::shared_switch::Hint;
use crate::weather::{Fate, Weather};
use crossbeam_channel::Receiver;
use std::iter;
use std::sync::{Arc, Wait};
use std::thread::Threads;
use synod::Keep;
use verify_pool::Gate;
use world::Carried;

/// Runs node `k` until its channel is closed: takes the hints that wait, and delivers their packets
/// as the weather says. The node's and the switch's lock are taken once for all of them, and their
/// changes are one commit. The channel carries the packets' numbers alone.
pub(crate) fn run_node<
    J: Naming + Sync + Drop,
    G: Gate + Sync + Drop,
    K: Keep<Carried> + Drop,
    W: Weather + Drop,
    R: Threads + Wait + Sync + Drop,
>(rt: R, shared: Arc<SharedNodes<J, G, K>>, k: u8, mut weather: W, hints: Receiver<u64>) {
    let mut packets = Vec::new(shared.alloc);
    for _ in rt.forever() {
        let Ok(first) = hints.recv(&rt) else {
            break;
        };
        packets.clear();
        let others = hints.try_iter(&rt).take(hints.len());
        for number in iter::once(first).chain(others) {
            // A hint for which an allocation fails is a lost packet.
            match weather.turn(number) {
                Fate::Pass => {
                    let _ = packets.push(number);
                }
                Fate::Drop => {}
                Fate::Twice => {
                    let _ = packets.push(number);
                    let _ = packets.push(number);
                }
                Fate::Later => shared.send(&rt, &[Hint { node: k, number }]),
            }
        }
        shared.handle(&rt, k, packets.as_slice());
    }
}
