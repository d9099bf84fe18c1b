//! A node whose log is full, and one for whose next ballot no greater round is left.
ghost use Rattle.std.specs.Prelude.{IfSome};
ghost use Rattle.std.specs.List.{AllByRecursion};
ghost use Rattle.synod.specs.Packets.{IsReport};

use slots::SLOTS;
use std::alloc::{AllocError, Global};
use synod::{Ballot, Body, NodeCore, Packet, Refusal, Reports, SlotReport, Value, Weights};

/// A value for the tests.
#[derive(Clone, Copy)]
struct Number(u64);

impl Value for Number {
    ghost bytes = { λ _. 8 };

    fn copy(&self) -> Result<Self, AllocError> {
        Ok(*self)
    }

    fn size(&self) -> u64 {
        8
    }
}

#[test]
fn the_log_may_be_full(rt: HostRuntime) {
    assert!(rt; fills_its_log(rt.alloc()) == Some(true));
}

/// Returns whether the only node of a system, which begins a ballot and receives a promise with a
/// value at the last slot, proposes at each slot, and then refuses an offer, since its log is full.
fn fills_its_log(alloc: Global) -> Option<bool> {
    let mut node = NodeCore::new(alloc, 0, Weights::equal(1));
    let filled = is_filled(alloc, &mut node);
    // An explicit `drop` is proved once for each type; a drop at the end of the scope would be
    // proved here.
    drop(node);
    filled
}

/// Returns the same for this new node.
fn is_filled(alloc: Global, node: &mut NodeCore<Number>) -> Option<bool> {
    if node.begin().is_err() {
        return None;
    }
    let proposed = proposals_after_report(alloc, node)?;
    Some(proposed == SLOTS as usize && node.offer(Number(2)).err() == Some(Refusal::LogFull))
}

/// Returns how many packets the node posts when it receives a promise that reports a value at the
/// last slot.
fn proposals_after_report(alloc: Global, node: &mut NodeCore<Number>) -> Option<usize> {
    if node.node_count() == 0 {
        return None;
    }
    let promise = Packet {
        from: 0,
        to: 0,
        body: Body::Promise {
            ballot: Ballot { round: 1, node: 0 },
            page: 1,
            count: 1,
            reports: last_slot_reports(alloc)?,
        },
    };
    match node.on_packet(&promise) {
        Ok(posts) => Some(posts.len()),
        Err(_) => None,
    }
}

/// Returns the reports of such a promise: one, of a value at the last slot.
fn last_slot_reports(alloc: Global) -> Option<Reports<Number>>
    ensures { IfSome result (λ reports. AllByRecursion IsReport reports) }
{
    let mut reports = Vec::new(alloc);
    reports
        .push(SlotReport {
            slot: SLOTS - 1,
            ballot: Ballot { round: 0, node: 0 },
            value: Some(Number(1)),
        })
        .ok()?;
    Some(Reports::new(reports))
}

#[test]
fn the_rounds_may_be_spent(rt: HostRuntime) {
    assert!(rt; has_no_greater_round(rt.alloc()) == Some(true));
}

/// Returns whether a node that receives a packet of the greatest round begins no ballot.
fn has_no_greater_round(alloc: Global) -> Option<bool> {
    let mut node = NodeCore::new(alloc, 0, Weights::equal(1));
    let refused = begins_no_ballot(&mut node);
    drop(node);
    refused
}

/// Returns the same for this new node.
fn begins_no_ballot(node: &mut NodeCore<Number>) -> Option<bool> {
    if node.node_count() == 0 {
        return None;
    }
    let ballot = Ballot {
        round: u64::MAX,
        node: 0,
    };
    let prepare = Packet {
        from: 0,
        to: 0,
        body: Body::Prepare { ballot, first: 0 },
    };
    if node.on_packet(&prepare).is_err() {
        return None;
    }
    Some(node.begin().err() == Some(Refusal::RoundsSpent))
}
