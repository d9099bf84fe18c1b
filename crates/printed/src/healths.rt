//! The health of all nodes, as text.
ghost use Rattle.std.specs.Prelude.{◌≡◌, ◌++◌, IfOk, OnOk, slice_get};
ghost use Rattle.printed.specs.Healths.{events_line, health_lines, health_text, lead_at_text};
ghost use Rattle.printed.specs.Healths.{lead_text};
ghost use Rattle.printed.specs.Healths.{node_counts_text, node_line, node_lines, node_start_text};
ghost use Rattle.printed.specs.Healths.{node_end_text, stored_text};

use crate::counted::push_counted_lines;
use crate::packets::push_ballot;
use crate::states::push_count;
use std::alloc::{AllocError, Global};
use synod::{Ballot, NodeState, Role};
use text::push_number;
use world::{Health, NodeStatus};

/// Appends a line of `health` and the count of the lines that follow: a line for each node, and a
/// line of the number of events taken and of those that the nodes take. The line of a node says
/// whether it is up, whether it leads and under which ballot, how many entries its log has, one
/// above the greatest slot that it knows of, how many entries were applied, if `stored` has the
/// bytes of the nodes' files and is not empty, how many bytes its files have, and `recovering` if it
/// knows of an entry that it has not learned.
pub fn push_health(text: &mut Vec<u8>, health: &Health, stored: &[u64]) -> Result<(), AllocError>
    ensures { OnOk result (text.new.items ≡ text.old.items ++ health_text health.now stored.now) }
{
    let lines = lines_of(*text.allocator(), health, stored)?;
    push_counted_lines(text, b"health", lines.as_slice())
}

/// Returns the lines after the first.
fn lines_of(alloc: Global, health: &Health, stored: &[u64]) -> Result<Vec<u8>, AllocError>
    ensures { IfOk result (λ lines. lines.items ≡ health_lines health.now stored.now) }
{
    let mut lines = Vec::new(alloc);
    push_node_lines(&mut lines, health.nodes.as_slice(), stored)?;
    push_events_line(&mut lines, health.events, health.event_limit)?;
    Ok(lines)
}

/// Appends a line for each node.
fn push_node_lines(
    text: &mut Vec<u8>,
    nodes: &[NodeStatus],
    stored: &[u64],
) -> Result<(), AllocError>
    ensures { OnOk result (text.new.items ≡ text.old.items ++ node_lines 0 stored.now nodes.now) }
{
    for (k, status) in nodes.iter().enumerate() {
        push_node_line(text, k as u64, status, bytes_of(stored, k))?;
    }
    Ok(())
}

/// Returns how many bytes the files of a node have, if `stored` has their number.
fn bytes_of(stored: &[u64], k: usize) -> Option<u64>
    ensures { result ≡ slice_get stored.now k }
{
    stored.get(k).copied()
}

/// Appends the line of node `k`.
fn push_node_line(
    text: &mut Vec<u8>,
    k: u64,
    status: &NodeStatus,
    stored: Option<u64>,
) -> Result<(), AllocError>
    ensures { OnOk result (text.new.items ≡ text.old.items ++ node_line k status.now stored) }
{
    push_node_start(text, k, status.is_down)?;
    push_lead(text, &status.state)?;
    push_node_counts(text, status)?;
    push_stored(text, stored)?;
    push_node_end(text, &status.state)
}

/// Appends how many bytes the files of a node have, if it has files.
fn push_stored(text: &mut Vec<u8>, stored: Option<u64>) -> Result<(), AllocError>
    ensures { OnOk result (text.new.items ≡ text.old.items ++ stored_text stored) }
{
    match stored {
        Some(bytes) => push_count(text, b" stored ", bytes),
        None => Ok(()),
    }
}

/// Ends the line of a node, and says before whether it knows of an entry that it has not learned.
fn push_node_end(text: &mut Vec<u8>, state: &NodeState) -> Result<(), AllocError>
    ensures { OnOk result (text.new.items ≡ text.old.items ++ node_end_text state.now) }
{
    if state.log_len < state.top {
        text.extend_from_slice(b" recovering\n")
    } else {
        text.extend_from_slice(b"\n")
    }
}

/// Appends the number of a node, and whether it is up.
fn push_node_start(text: &mut Vec<u8>, k: u64, is_down: bool) -> Result<(), AllocError>
    ensures { OnOk result (text.new.items ≡ text.old.items ++ node_start_text k is_down) }
{
    let state = if is_down { b" down".as_slice() } else { b" up" };
    push_number(text, k)?;
    text.extend_from_slice(state)
}

/// Appends whether a node leads, and under which ballot.
fn push_lead(text: &mut Vec<u8>, state: &NodeState) -> Result<(), AllocError>
    ensures { OnOk result (text.new.items ≡ text.old.items ++ lead_text state.now.role state.now.promise) }
{
    match state.role {
        Role::Idle => text.extend_from_slice(b" follows"),
        Role::Preparing { .. } => text.extend_from_slice(b" follows"),
        Role::Leading { ballot, .. } => push_lead_at(text, ballot, state.promise),
    }
}

/// Appends whether a node leads that has this ballot and this promise.
fn push_lead_at(text: &mut Vec<u8>, ballot: Ballot, promise: Ballot) -> Result<(), AllocError>
    ensures { OnOk result (text.new.items ≡ text.old.items ++ lead_at_text ballot promise) }
{
    if ballot.is_below(promise) {
        return text.extend_from_slice(b" follows");
    }
    text.extend_from_slice(b" leads ")?;
    push_ballot(text, ballot)
}

/// Appends how many entries the log of a node has, one above the greatest slot that it knows of,
/// and how many entries were applied.
fn push_node_counts(text: &mut Vec<u8>, status: &NodeStatus) -> Result<(), AllocError>
    ensures { OnOk result (text.new.items ≡ text.old.items ++ node_counts_text status.now) }
{
    push_count(text, b" learned ", u64::from(status.state.log_len))?;
    push_count(text, b" of ", u64::from(status.state.top))?;
    push_count(text, b" applied ", u64::from(status.applied))
}

/// Appends a line of the number of events taken, and of those that the nodes take.
fn push_events_line(text: &mut Vec<u8>, events: u64, event_limit: u64) -> Result<(), AllocError>
    ensures { OnOk result (text.new.items ≡ text.old.items ++ events_line events event_limit) }
{
    push_count(text, b"events ", events)?;
    push_count(text, b" of ", event_limit)?;
    text.extend_from_slice(b"\n")
}
