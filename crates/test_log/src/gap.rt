//! A scenario in which node 2 learns the second entry of the log before the first, and then fills
//! the gap. It is played by the calls of `cluster` that borrow a switch and cells, the values that
//! `nodes` has under locks.
//!
//! Each cell applies the entries of its node's log, which ends at the first gap, and cells compare
//! as the counts of their statements do. They also compare so if the keep of node 0 fails at one of
//! its first 36 calls and the node restarts after any step.

use crate::fail_once_keep::{FailOnceKeep, entry, make_three_nodes, restart_first_node};
use cluster::{
    Ahead, NodeCell, Switch, apply_on, begin_on, belongs, compare_on, deliver_on, list_on,
    offer_on, take_on,
};
use net::StepFault;
use std::alloc::Global;
use world::Carried;

/// A step of the scenario: at node 0 a ballot, or an offer of the text of a serial number; or a
/// delivery of a packet by its number.
#[derive(Clone, Copy)]
enum Step {
    Begin,
    Offer(u64),
    Deliver(u64),
}

/// Each step, with the number of packets that are posted by it and the steps before it.
const STEPS: [(Step, u64); 17] = [
    (Step::Begin, 3),
    (Step::Deliver(0), 4),
    (Step::Deliver(1), 5),
    (Step::Deliver(3), 5),
    (Step::Deliver(4), 5),
    (Step::Offer(1), 8),
    (Step::Offer(2), 11),
    (Step::Deliver(5), 14),
    (Step::Deliver(6), 17),
    (Step::Deliver(8), 20),
    (Step::Deliver(9), 23),
    (Step::Deliver(11), 23),
    (Step::Deliver(14), 23),
    (Step::Deliver(19), 23),
    (Step::Deliver(22), 25),
    (Step::Deliver(23), 26),
    (Step::Deliver(25), 27),
];

#[test]
fn the_gap_is_filled(rt: HostRuntime) {
    assert!(rt; new_nodes_fill_gap(rt.alloc()) == Ok(true));
}

/// Returns whether three new nodes fill the gap, and their cells apply what they have learned.
fn new_nodes_fill_gap(alloc: Global) -> Result<bool, StepFault> {
    let (mut switch, mut cells) = make_three_nodes(alloc, FailOnceKeep::new(alloc, None, false))?;
    let filled = steps_fill_gap(alloc, &mut switch, &mut cells);
    // An explicit `drop` is proved once for each type; a drop at the end of the scope would be
    // proved here.
    drop(cells);
    drop(switch);
    filled
}

/// Returns whether all steps succeed, and the cells then apply what their nodes have learned.
fn steps_fill_gap(
    alloc: Global,
    switch: &mut Switch<Carried, FailOnceKeep>,
    cells: &mut Vec<NodeCell>,
) -> Result<bool, StepFault> {
    Ok(all_steps_succeed(alloc, switch) && cells_add_expected(switch, cells)?)
}

/// Returns whether all steps succeed, and no other packet and no other node exists.
fn all_steps_succeed(alloc: Global, switch: &mut Switch<Carried, FailOnceKeep>) -> bool {
    for (step, posted) in STEPS {
        if make_step(alloc, switch, step) != Ok(posted) {
            return false;
        }
    }
    deliver_on(switch, 27) == Err(StepFault::NoPacket)
        && begin_on(switch, 3) == Err(StepFault::NoNode)
}

/// Returns whether each cell adds as many statements as `expected_added` says of its node, and all
/// agree.
fn cells_add_expected(
    switch: &Switch<Carried, FailOnceKeep>,
    cells: &mut Vec<NodeCell>,
) -> Result<bool, StepFault> {
    for cell in cells.iter_mut() {
        if !adds_statements(cell, switch, expected_added(cell.node()))? {
            return Ok(false);
        }
    }
    Ok(all_agree(switch, cells))
}

/// Returns how many statements a node is expected to add: node 0 has learned the first entry, node
/// 1 none, and node 2 both.
fn expected_added(node: u8) -> usize {
    match node {
        0 => 1,
        1 => 0,
        _ => 2,
    }
}

/// Returns whether the cell takes over and applies all entries of its node's log, and then has
/// `added` statements, none with a label.
fn adds_statements(
    cell: &mut NodeCell,
    switch: &Switch<Carried, FailOnceKeep>,
    added: usize,
) -> Result<bool, StepFault> {
    let had_entry = apply_on(cell)?.is_some();
    take_over_and_apply(cell, switch)?;
    let has_more = take_on(cell, switch)? || apply_on(cell)?.is_some();
    let listed = list_on(cell)?.len();
    Ok(!had_entry && !has_more && listed == 0 && cell.library().statements().len() == added)
}

/// Makes a step of the scenario.
fn make_step(
    alloc: Global,
    switch: &mut Switch<Carried, FailOnceKeep>,
    step: Step,
) -> Result<u64, StepFault> {
    match step {
        Step::Begin => begin_on(switch, 0),
        Step::Offer(1) => offer_on(switch, 0, entry(alloc, 1, b"$c a $.")?),
        Step::Offer(serial) => offer_on(switch, 0, entry(alloc, serial, b"$c b $.")?),
        Step::Deliver(number) => deliver_on(switch, number),
    }
}

/// Takes over and applies the entries of the log of the cell's node, three at most.
fn take_over_and_apply(
    cell: &mut NodeCell,
    switch: &Switch<Carried, FailOnceKeep>,
) -> Result<(), StepFault> {
    for _entry in 0..3 {
        if !take_on(cell, switch)? {
            break;
        }
        apply_on(cell)?;
    }
    Ok(())
}

/// Returns whether each cell belongs to the switch, and each two compare as their statements do.
fn all_agree(switch: &Switch<Carried, FailOnceKeep>, cells: &[NodeCell]) -> bool {
    for one in cells {
        for other in cells {
            if ahead_if_both_belong(one, other, switch) != Some(ahead_by_count(one, other)) {
                return false;
            }
        }
    }
    true
}

/// Returns which of two cells is ahead, or `None` if one does not belong to the switch or they have
/// two limits on work.
fn ahead_if_both_belong(
    one: &NodeCell,
    other: &NodeCell,
    switch: &Switch<Carried, FailOnceKeep>,
) -> Option<Ahead> {
    let are_alike = one.work_limit() == other.work_limit();
    if are_alike && belongs(one, switch) && belongs(other, switch) {
        Some(compare_on(one, other, switch))
    } else {
        None
    }
}

/// Returns which of two cells is ahead, by the counts of their statements.
fn ahead_by_count(one: &NodeCell, other: &NodeCell) -> Ahead {
    let first = one.library().statements().len();
    let second = other.library().statements().len();
    if first == second {
        Ahead::Same
    } else if first < second {
        Ahead::Second
    } else {
        Ahead::First
    }
}

#[test]
fn cells_agree_after_each_failure(rt: HostRuntime) {
    for restart in 0..STEPS.len() {
        for calls in 0..36 {
            let old = agrees(rt.alloc(), Some(calls), false, restart);
            let new = agrees(rt.alloc(), Some(calls), true, restart);
            assert!(rt;
                old == Ok(true) && new == Ok(true),
                "restart {restart}, call {calls}"
            );
        }
    }
}

/// Returns whether all cells agree after the steps if the keep of node 0 fails after `calls_left`
/// calls and the node restarts after the step of index `restart`. A step that fails is skipped.
/// After each step, each cell takes over and applies the entries that its node has learned.
fn agrees(
    alloc: Global,
    calls_left: Option<u32>,
    leaves_new: bool,
    restart: usize,
) -> Result<bool, StepFault> {
    let (mut switch, mut cells) = make_three_nodes(
        alloc,
        FailOnceKeep::new(alloc, calls_left, leaves_new),
    )?;
    let agreed = run_with_restart(alloc, &mut switch, &mut cells, restart);
    drop(cells);
    drop(switch);
    agreed
}

/// Makes the steps and the restart, and returns whether all cells agree then.
fn run_with_restart(
    alloc: Global,
    switch: &mut Switch<Carried, FailOnceKeep>,
    cells: &mut Vec<NodeCell>,
    restart: usize,
) -> Result<bool, StepFault> {
    for (i, (step, _)) in STEPS.iter().enumerate() {
        let _ = make_step(alloc, switch, *step);
        take_over_and_apply_each(cells, switch)?;
        if i == restart {
            let _ = restart_first_node(switch, cells);
        }
    }
    Ok(all_agree(switch, cells))
}

/// Has each cell take over and apply the entries of its node's log.
fn take_over_and_apply_each(
    cells: &mut Vec<NodeCell>,
    switch: &Switch<Carried, FailOnceKeep>,
) -> Result<(), StepFault> {
    for cell in cells.iter_mut() {
        take_over_and_apply(cell, switch)?;
    }
    Ok(())
}
