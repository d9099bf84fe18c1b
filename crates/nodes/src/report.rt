//! The report of a cluster: the number of events of each node.
ghost use Rattle.std.specs.Prelude.{◌≡◌, ◌+◌, ◌<◌, ◌≤◌, replicate, sum};
ghost use Rattle.nodes.specs.Report.{IsReport, with_one_more_at};

use cluster::Switch;
use synod::Keep;
use world::Carried;

/// The number of events of each node (`handled`), and their sum (`events`). The events of a node
/// are its offers, ballots and restarts, and the deliveries of packets addressed to it.
#[derive(Drop)]
pub struct Report {
    pub events: u64,
    pub handled: Vec<u64>,
    pub ghost total: { events ≡ sum handled.items },
}

/// Counts the events of each node in the history of the switch, from a count of zero for each.
///
/// Cost: one pass over the history.
pub(crate) fn count_events<K: Keep<Carried>>(
    switch: &Switch<Carried, K>,
    node_count: u8,
    mut handled: Vec<u64>,
) -> Report
    requires { handled.items ≡ replicate node_count 0 }
    ensures { IsReport switch.now node_count result.handled.items }
{
    let history = switch.history();
    let mut events = 0;
    for event in history {
        events += add_one(&mut handled, switch.node_of(event));
    }
    Report { events, handled }
}

/// Adds one to the count of a node. Returns 1, or 0 if there is no such node.
fn add_one(counts: &mut Vec<u64>, node: Option<u8>) -> u64
    requires { sum counts.old.items < u64.MAX }
    ensures counts { counts.new.items ≡ with_one_more_at 0 node counts.old.items }
    ensures total { sum counts.new.items ≡ sum counts.old.items + result }
    ensures few { result ≤ 1 }
{
    let Some(k) = node else {
        return 0;
    };
    let Some(count) = counts.get_mut(usize::from(k)) else {
        return 0;
    };
    *count += 1;
    1
}
