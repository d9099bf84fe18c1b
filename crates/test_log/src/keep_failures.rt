//! A node whose keep fails is down until it restarts. A keep in memory keeps an entry at any slot.
use crate::fail_once_keep::{FailOnceKeep, make_three_nodes, restart_first_node};
use cluster::{Delivered, MemoryKeep, NodeCell, Switch, begin_on};
use net::{Event, StepFault};
use slots::SLOTS;
use std::alloc::Global;
use synod::{AcceptedEntry, Ballot, Body, Change, Failed, Keep, Record};
use world::Carried;

#[test]
fn a_store_fails(rt: HostRuntime) {
    for leaves_new in [false, true] {
        assert!(rt;
            store_fails(rt.alloc(), leaves_new) == Ok(true),
            "new {leaves_new}"
        );
    }
}

/// Returns whether the first node is down after its first store fails, and up again after it
/// restarts. The failed store leaves the new record or the old one.
fn store_fails(alloc: Global, leaves_new: bool) -> Result<bool, StepFault> {
    let (mut switch, mut cells) = make_three_nodes(
        alloc,
        FailOnceKeep::new(alloc, Some(0), leaves_new),
    )?;
    let down = goes_down(&mut switch, &mut cells);
    // An explicit `drop` is proved once for each type; a drop at the end of the scope would be
    // proved here.
    drop(cells);
    drop(switch);
    down
}

/// Returns whether the keep of the first node fails as it begins a ballot, and the node is down
/// until it restarts.
fn goes_down(
    switch: &mut Switch<Carried, FailOnceKeep>,
    cells: &mut Vec<NodeCell>,
) -> Result<bool, StepFault> {
    Ok(
        begin_on(switch, 0) == Err(StepFault::Device)
            && begin_on(switch, 0) == Err(StepFault::Down)
            && restart_first_node(switch, cells) == Ok(5)
            && is_up_again(switch)?,
    )
}

/// Returns whether the node asked both others for the first entry when it restarted, and its next
/// ballot is its second.
fn is_up_again(switch: &mut Switch<Carried, FailOnceKeep>) -> Result<bool, StepFault> {
    let asked = matches!(switch.history(), [Event::Begin(0), Event::Restart(0)])
        && is_ask_for_first(switch, 3, 1)?
        && is_ask_for_first(switch, 4, 2)?;
    Ok(asked && begin_on(switch, 0) == Ok(8) && is_second_prepare(switch, 6)?)
}

/// Returns whether in this packet node 0 asks node `to` for the first entry.
fn is_ask_for_first(
    switch: &Switch<Carried, FailOnceKeep>,
    number: u64,
    to: u8,
) -> Result<bool, StepFault> {
    let packet = switch.packet(number)?;
    let asked = match &packet.body {
        Body::Ask { slot } => *slot == 0,
        _ => false,
    };
    Ok(asked && packet.from == 0 && packet.to == to)
}

/// Returns whether the packet is a prepare request to node 1 for the ballot of round 2 and node 0.
fn is_second_prepare(
    switch: &Switch<Carried, FailOnceKeep>,
    number: u64,
) -> Result<bool, StepFault> {
    let packet = switch.packet(number)?;
    let is_second = match &packet.body {
        Body::Prepare { ballot, first } => *first == 0 && ballot.round == 2 && ballot.node == 0,
        _ => false,
    };
    Ok(is_second && packet.to == 1)
}

#[test]
fn a_load_fails(rt: HostRuntime) {
    assert!(rt; load_fails(rt.alloc()) == Ok(true));
}

/// Returns whether the first node restarts after its keep failed to load.
fn load_fails(alloc: Global) -> Result<bool, StepFault> {
    let (mut switch, mut cells) = make_three_nodes(
        alloc,
        FailOnceKeep::new(alloc, Some(0), false),
    )?;
    let restarted = restarts_twice(&mut switch, &mut cells);
    drop(cells);
    drop(switch);
    Ok(restarted)
}

/// Returns whether the first restart meets the failure, and the second one is taken and stands
/// alone in the history.
fn restarts_twice(switch: &mut Switch<Carried, FailOnceKeep>, cells: &mut Vec<NodeCell>) -> bool {
    restart_first_node(switch, cells) == Err(StepFault::Device)
        && restart_first_node(switch, cells) == Ok(2)
        && matches!(switch.history(), [Event::Restart(0)])
}

#[test]
fn a_commit_fails(rt: HostRuntime) {
    assert!(rt; commit_fails(rt.alloc()) == Ok(true));
}

/// Returns whether the first node is down after the commit of a group fails, and has the changes of
/// the group after it restarts.
fn commit_fails(alloc: Global) -> Result<bool, StepFault> {
    let (mut switch, mut cells) = make_three_nodes(
        alloc,
        FailOnceKeep::new(alloc, Some(3), false),
    )?;
    let failed = goes_down_at_commit(&mut switch, &mut cells);
    drop(cells);
    drop(switch);
    Ok(failed)
}

/// Returns whether the commit after the first node promised its own ballot fails, and the node
/// refuses that ballot once it is up again.
fn goes_down_at_commit(
    switch: &mut Switch<Carried, FailOnceKeep>,
    cells: &mut Vec<NodeCell>,
) -> bool {
    let failed = Delivered {
        posted: 4,
        is_committed: false,
    };
    let refused = Delivered {
        posted: 7,
        is_committed: true,
    };
    begin_on(switch, 0) == Ok(3)
        && switch.deliver_all(0, &[0]) == failed
        && begin_on(switch, 0) == Err(StepFault::Down)
        && restart_first_node(switch, cells) == Ok(6)
        && switch.deliver_all(0, &[0]) == refused
}

/// Slots of the first page of 256 and of later pages, up to the last slot.
const SLOTS_KEPT: [u32; 5] = [0, 255, 256, 300, SLOTS - 1];

#[test]
fn each_slot_is_kept(rt: HostRuntime) {
    for slot in SLOTS_KEPT {
        assert!(rt; is_slot_kept(rt.alloc(), slot) == Ok(true), "slot {slot}");
    }
}

/// Returns whether a new keep in memory keeps an entry at the slot.
fn is_slot_kept(alloc: Global, slot: u32) -> Result<bool, Failed> {
    let mut keep: MemoryKeep<Carried> = MemoryKeep::new(alloc);
    let kept = is_kept(&mut keep, slot);
    drop(keep);
    kept
}

/// Returns whether a no-operation that is stored at the slot is in the loaded record.
fn is_kept<K: Keep<Carried>>(keep: &mut K, slot: u32) -> Result<bool, Failed> {
    let ballot = Ballot { round: 1, node: 0 };
    store(keep, slot, ballot)?;
    let record = keep.load()?;
    let kept = has_entry(&record, slot, ballot);
    drop(record);
    Ok(kept)
}

/// Stores a no-operation at the slot.
fn store<K: Keep<Carried>>(keep: &mut K, slot: u32, ballot: Ballot) -> Result<(), Failed> {
    let entry = AcceptedEntry {
        ballot,
        value: None,
    };
    let change = Change::Entry { slot, entry };
    let stored = keep.store(&change);
    drop(change);
    stored
}

/// Returns whether the record has an entry of that ballot at the slot.
fn has_entry(record: &Record<Carried>, slot: u32, ballot: Ballot) -> bool {
    match record.get(slot) {
        Some(entry) => entry.ballot.is_same(ballot),
        None => false,
    }
}
