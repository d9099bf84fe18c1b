//! The start of nodes that have a library from before: what was chosen is learned and applied again.
ghost use Rattle.std.specs.Prelude.{◌≡◌, ◌≤◌, ◌<◌, ℕ, IfOk, IfSome, length, option_and_then};
ghost use Rattle.std.specs.Prelude.{map, slice_get};
ghost use Rattle.std.specs.List.{list_all};
ghost use Rattle.nodes.specs.Words.{IsPrefixOf};
ghost use Rattle.program.specs.Recovery.{AreApplied, IsFound, WereApplied, are_new, are_quorum_up};
ghost use Rattle.program.specs.Recovery.{entries_led, has_applied, is_up, weight_up};

use crate::served_nodes::NodesDesk;
use net::StepFault;
use nodes::Naming;
use questions::Fault;
use std::alloc::{AllocError, Global};
use std::io::Write;
use std::sync::Wait;
use std::thread;
use std::time::Clock;
use synod::{Keep, Role, Weights};
use world::{Carried, Health, NodeStatus};

/// How many turns may pass in which no node learns or applies an entry before a ballot is begun
/// again. A turn is one `yield_now` of the thread.
const MAX_QUIET_TURNS: u32 = 1_000_000;

/// How many ballots are begun before the start goes on without.
const MAX_BALLOTS: u32 = 17;

/// The nodes are asked once in this many turns, since to ask takes the locks that they need.
const TURNS_PER_QUERY: u32 = 64;

/// What was found at a start.
#[derive(Clone, Copy, PartialEq, Eq)]
pub enum Recovered {
    /// Each node that is up has applied this many entries, which are all that a leader proposed; or
    /// there are none, since no node has accepted an entry.
    Entries(u32),
    /// The nodes that are up are no quorum.
    NoQuorum,
    /// Not all was learned after `MAX_BALLOTS` ballots.
    Unfinished,
}

/// What is printed while the nodes learn, and for how long they have.
#[derive(Drop)]
pub struct Progress<'a, E: Write> {
    stderr: &'a mut E,
    path: &'a str,
    /// The seconds of the clock as the start began; 0 if there is no clock.
    begun: u64,
    /// The seconds since then that the last line told.
    told: u64,
}

impl<'a, E: Write> Progress<'a, E> {
    /// Begins to count. Prints nothing.
    pub fn begin<R: Clock>(rt: &R, stderr: &'a mut E, path: &'a str) -> Self {
        Progress {
            stderr,
            path,
            begun: seconds_of(rt),
            told: 0,
        }
    }

    /// Prints how many entries are applied, once a second. Ignores a failed write.
    fn tell<R: Clock>(&mut self, rt: &R, health: &Health) {
        let seconds = seconds_of(rt).saturating_sub(self.begun);
        if seconds > self.told {
            self.told = seconds;
            let (applied, entries) = least_applied(health);
            let _ = writeln!(self.stderr, "{}: {applied} of {entries} entries", self.path);
        }
    }

    /// Prints what was found, of so many nodes, and how long it took. Ignores a failed write.
    pub fn tell_found<R: Clock>(&mut self, rt: &R, count: u8, found: Recovered) {
        let seconds = seconds_of(rt).saturating_sub(self.begun);
        let _ = write!(self.stderr, "{}: {count} nodes, ", self.path);
        let _ = match found {
            Recovered::Entries(entries) => writeln!(self.stderr, "{entries} entries, {seconds} s"),
            Recovered::NoQuorum => writeln!(self.stderr, "of which no quorum is up"),
            Recovered::Unfinished => writeln!(self.stderr, "which have not learned all entries"),
        };
        let _ = self.stderr.flush();
    }
}

/// Returns the seconds of the clock, or 0 if there is none.
fn seconds_of<R: Clock>(rt: &R) -> u64 {
    match rt.monotonic() {
        Ok(time) => time.as_secs(),
        Err(_) => 0,
    }
}

/// Has the heaviest node that is up begin a ballot, if a node accepted an entry before, and waits
/// until each node that is up has applied all that was chosen. `weights` are those of the nodes.
///
/// Errors: those of `Desk::health` and `Desk::begin`; an allocation fails.
#[tactic(auto, using(nodes::proofs::PrefixLemmas::prefix_trans))]
pub fn recover<J: Naming, R: Wait + Clock, K: Keep<Carried>, E: Write>(
    rt: &R,
    desk: &mut NodesDesk<J, K>,
    weights: Weights,
    progress: &mut Progress<'_, E>,
) -> Result<Recovered, Fault>
    requires { desk.old.node_count ≡ length weights }
    ensures { IfOk result (IsFound desk.old.seen desk.new.seen desk.old.node_count weights) }
{
    for _ballot in 0..MAX_BALLOTS {
        let health = desk.health(rt)?;
        let nodes = health.nodes.as_slice();
        if !is_quorum_up(*health.nodes.allocator(), weights, nodes)? {
            return Ok(Recovered::NoQuorum);
        }
        if are_new(&health) {
            return Ok(Recovered::Entries(0));
        }
        let leader = heaviest_up(weights, nodes);
        begin_if_up(rt, desk, leader)?;
        if let Some(entries) = wait_until_applied(rt, desk, leader, progress)? {
            return Ok(Recovered::Entries(entries));
        }
    }
    Ok(Recovered::Unfinished)
}

/// Returns whether no node accepted or learned an entry.
fn are_new(health: &Health) -> bool
    ensures { result ≡ are_new health.now.nodes.items }
{
    have_no_entries(health.nodes.as_slice())
}

/// Returns whether none of these nodes accepted or learned an entry.
fn have_no_entries(nodes: &[NodeStatus]) -> bool
    ensures { result ≡ are_new nodes.now }
{
    nodes.iter().all(|node| node.state.top == 0)
}

/// Has a node begin a ballot, unless its keep fails or it is down.
fn begin_if_up<J: Naming, R: Wait, K: Keep<Carried>>(
    rt: &R,
    desk: &mut NodesDesk<J, K>,
    node: u8,
) -> Result<(), StepFault>
    ensures seen { IsPrefixOf desk.old.seen desk.new.seen }
    ensures nodes { desk.new.node_count ≡ desk.old.node_count }
{
    match desk.begin(rt, node) {
        Err(StepFault::Device | StepFault::Down) => Ok(()),
        begun => begun,
    }
}

/// Returns whether the nodes that are up have more than half of the whole weight.
fn is_quorum_up(alloc: Global, weights: Weights, nodes: &[NodeStatus]) -> Result<bool, AllocError>
    requires { length weights ≤ length nodes.now }
    ensures { IfOk result (λ up. up ≡ are_quorum_up weights nodes.now) }
{
    let up = up_nodes(alloc, nodes)?;
    Ok(weights.is_quorum(up.as_slice()))
}

/// Returns for each node whether it is up.
fn up_nodes(alloc: Global, nodes: &[NodeStatus]) -> Result<Vec<bool>, AllocError>
    ensures { IfOk result (λ up. up.items ≡ map is_up nodes.now) }
{
    nodes.iter().map(is_up).collect(alloc)
}

/// Returns whether a node is up.
fn is_up(node: &NodeStatus) -> bool
    ensures { result ≡ is_up node.now }
{
    !node.is_down
}

/// Returns the first of the heaviest nodes that are up; 0 if none is up.
fn heaviest_up(weights: Weights, nodes: &[NodeStatus]) -> u8
    ensures { (k : ℕ) → k < length weights
        → weight_up weights nodes.now k ≤ weight_up weights nodes.now result }
{
    let mut best = 0u8;
    for k in 1..weights.count() {
        if weight_up(weights, nodes, k) > weight_up(weights, nodes, best) {
            best = k;
        }
    }
    best
}

/// Returns the weight of a node if it is up, else 0.
fn weight_up(weights: Weights, nodes: &[NodeStatus], k: u8) -> u8
    ensures { result ≡ weight_up weights nodes.now k }
{
    let weight = weights.as_slice().get(usize::from(k)).copied().unwrap_or(0);
    match nodes.get(usize::from(k)) {
        Some(node) if !node.is_down => weight,
        _ => 0,
    }
}

/// Waits until each node that is up has applied what the leader proposed, and returns how many
/// entries these are; `None` if nothing is learned for a while.
#[tactic(auto, using(nodes::proofs::PrefixLemmas::prefix_trans))]
fn wait_until_applied<J: Naming, R: Wait + Clock, K: Keep<Carried>, E: Write>(
    rt: &R,
    desk: &mut NodesDesk<J, K>,
    leader: u8,
    progress: &mut Progress<'_, E>,
) -> Result<Option<u32>, Fault>
    ensures seen { IsPrefixOf desk.old.seen desk.new.seen }
    ensures nodes { desk.new.node_count ≡ desk.old.node_count }
    ensures applied { IfOk result (λ found. IfSome found
        (λ entries. WereApplied desk.old.seen desk.new.seen desk.old.node_count leader entries)) }
{
    let mut quiet = 0u32;
    let mut last = 0u64;
    for turn in 0..u64::MAX {
        if turn % u64::from(TURNS_PER_QUERY) == 0 {
            let health = desk.health(rt)?;
            if let Some(entries) = applied_by_all(&health, leader) {
                return Ok(Some(entries));
            }
            let done = work_of(&health);
            quiet = if done == last {
                quiet.saturating_add(TURNS_PER_QUERY)
            } else {
                0
            };
            last = done;
            progress.tell(rt, &health);
            if quiet > MAX_QUIET_TURNS {
                return Ok(None);
            }
        }
        thread::yield_now();
    }
    Ok(None)
}

/// Returns how many entries the leader proposed, if it leads and each node that is up has applied
/// them.
fn applied_by_all(health: &Health, leader: u8) -> Option<u32>
    ensures { IfSome result (λ entries. AreApplied leader entries health.now.nodes.items) }
{
    let nodes = health.nodes.as_slice();
    let entries = entries_led_at(nodes, leader)?;
    if have_applied(nodes, entries) {
        Some(entries)
    } else {
        None
    }
}

/// Returns whether each node that is up has applied this many entries.
fn have_applied(nodes: &[NodeStatus], entries: u32) -> bool
    ensures { result ≡ list_all (has_applied entries) nodes.now }
{
    nodes.iter().all(|node| has_applied(node, entries))
}

/// Returns how many entries a node proposed, if there is such a node and it leads.
fn entries_led_at(nodes: &[NodeStatus], node: u8) -> Option<u32>
    ensures { result ≡ option_and_then entries_led (slice_get nodes.now node) }
{
    entries_led(nodes.get(usize::from(node))?)
}

/// Returns how many entries a node proposed, if it leads and has promised no higher ballot.
fn entries_led(node: &NodeStatus) -> Option<u32>
    ensures { result ≡ entries_led node.now }
{
    let Role::Leading { ballot, next } = node.state.role else {
        return None;
    };
    if ballot.is_below(node.state.promise) {
        return None;
    }
    Some(next)
}

/// Returns whether a node is down, or has applied this many entries.
fn has_applied(node: &NodeStatus, entries: u32) -> bool
    ensures { result ≡ has_applied entries node.now }
{
    node.is_down || node.applied >= entries
}

/// Returns how many entries were learned and applied, of all nodes together.
fn work_of(health: &Health) -> u64 {
    let mut work = 0u64;
    for node in &health.nodes {
        work = work.saturating_add(u64::from(node.applied));
        work = work.saturating_add(u64::from(node.state.log_len));
    }
    work
}

/// Returns how many entries each node that is up has applied, and one above the greatest slot that
/// a node knows of.
fn least_applied(health: &Health) -> (u32, u32) {
    let mut applied = u32::MAX;
    let mut top = 0u32;
    for node in &health.nodes {
        if !node.is_down {
            applied = applied.min(node.applied);
        }
        top = top.max(node.state.top);
    }
    (applied.min(top), top)
}
