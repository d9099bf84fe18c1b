//! A world that takes all events of a list, one after another.
ghost use Rattle.std.specs.Prelude.{◌≡◌, IfOk, IfErr, OnOk};
ghost use Rattle.net.specs.Agreement.{RunStopsAt};
ghost use Rattle.net.specs.History.{new_history};
ghost use Rattle.world.specs.Carried.{carried_size, value_events};
ghost use Rattle.world.specs.WorldView.{new_node_libraries};
ghost use Rattle.world.specs.Headline.{Headline};

use crate::world::World;
use library::Entry;
use net::{Event, StepFault};
use std::alloc::Global;
use synod::Weights;

/// Takes all events, starting with new nodes, and returns the world after them, which takes at most
/// `event_limit` events and whose libraries have the limit on work. No entry is applied yet: its
/// libraries are empty.
///
/// Errors: the index from 0 of the first event that is refused, with its fault, or with `Memory` if
/// it meets none. The index is 0 if creating the new nodes runs out of memory. Cost: that of the
/// steps.
pub fn run(
    alloc: Global,
    weights: Weights,
    event_limit: u64,
    work_limit: Option<u64>,
    events: Vec<Event<Entry>>,
) -> Result<World, (usize, StepFault)>
    ensures taken { IfOk result
        (λ world. world
        ≡ record {
          history = new_history weights event_limit (value_events events.items);
          work_limit = work_limit;
          libraries = new_node_libraries work_limit weights;
        }) }
    ensures headline { OnOk result
        (Headline work_limit (new_history weights event_limit (value_events events.items))) }
    ensures stops { IfErr result
        (λ stop. RunStopsAt carried_size weights event_limit (value_events events.items) stop.0 stop.1) }
{
    let mut world = match World::new(alloc, weights, event_limit, work_limit) {
        Ok(world) => world,
        Err(fault) => return Err((0, fault)),
    };
    for event in events {
        if let Err(fault) = world.step(event) {
            return Err((world.history().len(), fault));
        }
    }
    Ok(world)
}
