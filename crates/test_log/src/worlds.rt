//! A world of entries: a whole list of events in one call, and an application after a failed
//! allocation.
use crate::fail_once_keep::entry;
use library::Entry;
use net::{Event, StepFault};
use std::alloc::{AllocError, Global};
use synod::Weights;
use world::{World, run};

/// The packets that are delivered in the scenario of `gap`: those of the ballot, and after both
/// offers the accepts to nodes 0 and 1 and four votes on them.
const DELIVERED: [[u64; 4]; 3] = [[0, 1, 3, 4], [5, 6, 8, 9], [11, 14, 19, 22]];

#[test]
fn events_are_run(rt: HostRuntime) {
    assert!(rt; runs_to_its_end(rt.alloc()) == Ok(true));
}

/// Returns whether all events up to the gap are taken, also if a delivery of a packet that does not
/// exist follows, which is refused.
fn runs_to_its_end(alloc: Global) -> Result<bool, AllocError> {
    let runs = runs_all(alloc, events_up_to_gap(alloc)?);
    let stops = stops_at_last(alloc, events_with_unknown_packet(alloc)?);
    Ok(runs && stops)
}

/// Returns whether all events are taken.
fn runs_all(alloc: Global, events: Vec<Event<Entry>>) -> bool {
    match run(alloc, Weights::equal(3), 16, None, events) {
        Ok(world) => {
            let taken = world.history().len() == 15;
            // An explicit `drop` is proved once for each type; a drop at the end of the scope would
            // be proved here.
            drop(world);
            taken
        }
        Err(_) => false,
    }
}

/// Returns whether all events are taken except the last, whose packet does not exist.
fn stops_at_last(alloc: Global, events: Vec<Event<Entry>>) -> bool {
    match run(alloc, Weights::equal(3), 16, None, events) {
        Ok(world) => {
            drop(world);
            false
        }
        Err(stop) => stop == (15, StepFault::NoPacket),
    }
}

/// Returns the events of the scenario up to the gap.
fn events_up_to_gap(alloc: Global) -> Result<Vec<Event<Entry>>, AllocError> {
    let mut events = Vec::new(alloc);
    push_events_up_to_gap(alloc, &mut events)?;
    Ok(events)
}

/// Returns these events and a delivery of a packet that does not exist.
fn events_with_unknown_packet(alloc: Global) -> Result<Vec<Event<Entry>>, AllocError> {
    let mut events = events_up_to_gap(alloc)?;
    events.push(Event::Deliver(25))?;
    Ok(events)
}

/// Appends the events of the scenario up to the gap.
fn push_events_up_to_gap(alloc: Global, events: &mut Vec<Event<Entry>>) -> Result<(), AllocError> {
    events.push(Event::Begin(0))?;
    let [ballot, accepts, votes] = DELIVERED;
    push_deliveries(events, &ballot)?;
    push_offer(alloc, events, 1, b"$c a $.")?;
    push_offer(alloc, events, 2, b"$c b $.")?;
    push_deliveries(events, &accepts)?;
    push_deliveries(events, &votes)
}

/// Appends the offer of a text at node 0.
fn push_offer(
    alloc: Global,
    events: &mut Vec<Event<Entry>>,
    serial: u64,
    text: &[u8],
) -> Result<(), AllocError> {
    let entry = entry(alloc, serial, text)?;
    Ok(events.push(Event::Offer(0, entry))?)
}

/// Appends the deliveries of the packets of these numbers.
fn push_deliveries(events: &mut Vec<Event<Entry>>, numbers: &[u64]) -> Result<(), AllocError> {
    for number in numbers {
        events.push(Event::Deliver(*number))?;
    }
    Ok(())
}

/// A node's library is as before after a failed allocation, and the next application returns the
/// verdict.
#[test]
fn applies_after_a_failed_allocation(rt: HostRuntime) {
    assert!(rt; applies_if_learned(rt.alloc()));
}

/// Returns whether a world that learned two texts applies both; also true if there is no memory for
/// a world.
fn applies_if_learned(alloc: Global) -> bool {
    match world_with_two_learned(alloc) {
        Ok(mut world) => {
            let applied = applies_all(&mut world);
            drop(world);
            applied
        }
        Err(_) => true,
    }
}

/// Returns whether three calls, one of which may run out of memory, apply the two entries, and no
/// entry is left then.
fn applies_all(world: &mut World) -> bool {
    for _call in 0..3 {
        match world.apply_next(0) {
            Ok(_) => {}
            Err(fault) => {
                if fault != StepFault::Memory {
                    return false;
                }
            }
        }
    }
    world.apply_next(0) == Ok(None)
}

/// Returns a world of one node that has learned two texts of one author with the same serial
/// number.
fn world_with_two_learned(alloc: Global) -> Result<World, StepFault> {
    let mut world = World::new(alloc, Weights::equal(1), 100, None)?;
    learn_two(alloc, &mut world)?;
    Ok(world)
}

/// Has the node of this world learn the two texts.
fn learn_two(alloc: Global, world: &mut World) -> Result<(), StepFault> {
    world.step(Event::Offer(0, entry(alloc, 1, b"$c a $.")?))?;
    world.step(Event::Offer(0, entry(alloc, 1, b"$c b $.")?))?;
    world.step(Event::Begin(0))?;
    for number in 0..6 {
        world.step(Event::Deliver(number))?;
    }
    Ok(())
}
