//! A world whose steps are recorded.
ghost use Rattle.std.specs.Prelude.{◌≡◌, ◌≤◌, ◌<◌, [], length, slice_get, filter, IfOk, IfErr};
ghost use Rattle.std.specs.Prelude.{IsErr, OnOk, OnErr, IsOkUnless};
ghost use Rattle.net.specs.History.{with_event, world_of};
ghost use Rattle.net.specs.World.{packets_after};
ghost use Rattle.net.specs.declared.fault.StepFault.TheVariants.{Memory};
ghost use Rattle.world.specs.Carried.{value_event, carried_size};
ghost use Rattle.world.specs.WorldView.{new_world, next_entry};
ghost use Rattle.run_pictures.specs.RunView.{AppliesOrNot};
ghost use Rattle.run_pictures.specs.Steps.{act_of, application_of, is_event, learned_by};
ghost use Rattle.run_pictures.specs.Steps.{node_of_step, receiver_of, step_start_of, steps_of};

use crate::step::{Act, Step, StepStart};
use crate::step_range::{StepRange, shown};
use library::{Entry, Verdict};
use net::{Event, StepFault};
use std::alloc::Global;
use std::marker::Model;
use synod::Weights;
use world::World;

/// A world of nodes and their libraries, with a record of its steps: the events that it took and
/// the applications of entries, in order. In contracts a run is the world and the steps.
#[derive(Drop)]
pub struct Run {
    world: World,
    steps: Vec<Step>,
    /// The number of packets posted so far.
    posted: u64,
}

impl Model for Run {
    ghost use Rattle.run_pictures.specs.RunView.{IsRecorded, RunView};

    ghost Value = { RunView };

    ghost view = { λ r. record { world = r.world; steps = r.steps.items } };

    ghost invariant = { λ r. IsRecorded r.world r.steps.items r.posted };
}

impl Run {
    ghost use Rattle.run_pictures.specs.RunView.{RunView, RecordsNext, RecordsEvent};
    ghost use Rattle.run_pictures.specs.Posts.{shown_of};

    /// Makes a run of new nodes, without steps. The nodes take at most `event_limit` events;
    /// `work_limit` is the greatest work that an entry may count, if there is a limit.
    #[tactic(auto, using(crate::proofs::RunLemmas::new_recorded))]
    pub fn new(
        alloc: Global,
        weights: Weights,
        event_limit: u64,
        work_limit: Option<u64>,
    ) -> Result<Run, StepFault>
        ensures new { IfOk result
            (λ run. run ≡ record { world = new_world weights event_limit work_limit; steps = [] }) }
        ensures only_memory { IsOkUnless result Memory }
    {
        Ok(Run {
            world: World::new(alloc, weights, event_limit, work_limit)?,
            steps: Vec::new(alloc),
            posted: 0,
        })
    }

    /// Takes an event, and records its step.
    ///
    /// Errors: those of `World::step`, but `Memory` may come before any of them, and `NoNode`
    /// before `EventsSpent`; the run is then unchanged.
    #[tactic(auto, using(crate::proofs::RunLemmas::event_recorded, crate::proofs::RunLemmas::same_recorded))]
    pub fn step(&mut self, event: Event<Entry>) -> Result<(), StepFault>
        ensures taken { OnOk result (RecordsEvent self.old (value_event event) self.new) }
        ensures refused { IfErr
            (world_of carried_size (with_event self.old.world.history (value_event event)))
            (λ fault. IsErr result) }
        ensures same { OnErr result (self.new ≡ self.old) }
    {
        self.steps.reserve(1)?;
        let start = step_start(&self.world, self.posted, &event)?;
        let posted = self.world.step(event)?;
        let log_len = log_len_at(&self.world, start.node);
        self.posted = posted;
        self.steps.push_reserved(start.ended(posted, log_len));
        Ok(())
    }

    /// Applies the next entry of the log of node `k` to its library and records the step. Does
    /// nothing if there is no next entry.
    ///
    /// Errors: those of `World::apply_next`, or `Memory`; the run is then unchanged.
    #[tactic(auto, using(crate::proofs::RunLemmas::application_recorded, crate::proofs::RunLemmas::same_recorded))]
    pub fn apply_next(&mut self, k: u8) -> Result<(), StepFault>
        ensures applied { OnOk result
            (RecordsNext self.old k (next_entry self.old.world k) self.new) }
        ensures no_node { length self.old.world.history.weights ≤ k → IsErr result }
        ensures same { OnErr result (self.new ≡ self.old) }
        ensures same_history { self.new.world.history ≡ self.old.world.history }
    {
        self.steps.reserve(1)?;
        let slot = self.world.applied(k)?;
        let log_len = self.world.state(k)?.log_len;
        let Some(verdict) = apply_on(&mut self.world, k)? else {
            return Ok(());
        };
        self.steps
            .push_reserved(application_step(k, log_len, slot, verdict));
        Ok(())
    }

    /// Returns the world after the steps.
    pub fn world(&self) -> &World
        ensures { result.now ≡ self.now.world }
    {
        &self.world
    }

    /// Returns the steps of a range. The recorded steps of events are exactly those of the events in
    /// the history, in order (`events`).
    pub fn shown(&self, range: StepRange) -> &[Step]
        ensures shown { result.now ≡ shown_of self.now.steps range.from range.count }
        ensures events { filter is_event self.now.steps ≡ steps_of self.now.world.history }
    {
        shown(self.steps.as_slice(), range)
    }
}

/// Returns the fields of an event's step that are known before the world takes the event. For the
/// delivery of a packet that does not exist these are of node 0; the world then refuses the event.
///
/// Errors: `NoNode` if there is no such node.
fn step_start(world: &World, posted: u64, event: &Event<Entry>) -> Result<StepStart, StepFault>
    requires { posted ≡ length (packets_after (world_of carried_size world.now.history)) }
    ensures start { IfOk result (λ start. start ≡ step_start_of (length world.now.history.events)
        (world_of carried_size world.now.history) (value_event event.now)) }
    ensures node { IfOk result (λ start. start.node < length world.now.history.weights) }
{
    let node = node_of(world, event);
    let log_len_before = world.state(node)?.log_len;
    Ok(StepStart {
        node,
        act: act(event, world.history().len() as u64),
        first_post: posted,
        log_len_before,
    })
}

/// Returns the node of an event, or 0 for the delivery of a packet that does not exist.
fn node_of(world: &World, event: &Event<Entry>) -> u8
    ensures { result ≡ node_of_step (world_of carried_size world.now.history) (value_event event.now) }
{
    match event {
        Event::Offer(k, _) => *k,
        Event::Begin(k) => *k,
        Event::Deliver(number) => receiver(world, *number),
        Event::Restart(k) => *k,
    }
}

/// Returns the receiver of a packet, or 0 if there is no such packet.
fn receiver(world: &World, number: u64) -> u8
    ensures { result ≡ receiver_of (slice_get (packets_after (world_of carried_size world.now.history)) number) }
{
    match world.packet(number) {
        Ok(packet) => packet.to,
        Err(_) => 0,
    }
}

/// Returns the act of the event that is at an index of the history.
fn act(event: &Event<Entry>, index: u64) -> Act
    ensures { result ≡ act_of index (value_event event.now) }
{
    match event {
        Event::Offer(_, _) => Act::Offer { event_index: index },
        Event::Begin(_) => Act::Begin,
        Event::Deliver(number) => Act::Deliver { packet: *number },
        Event::Restart(_) => Act::Restart,
    }
}

/// Returns the number of entries of node `k`'s log.
fn log_len_at(world: &World, k: u8) -> u32
    requires { k < length world.now.history.weights }
    ensures { result ≡ learned_by (world_of carried_size world.now.history) k }
{
    match world.state(k) {
        Ok(state) => state.log_len,
        Err(_) => unreachable!(),
    }
}

/// Calls `World::apply_next`, and states of each answer what it was given for.
fn apply_on(world: &mut World, k: u8) -> Result<Option<Verdict>, StepFault>
    ensures applied { IfOk result
        (λ answer. AppliesOrNot world.old k (next_entry world.old k) answer world.new) }
    ensures same_history { world.new.history ≡ world.old.history }
    ensures same { OnErr result (world.new ≡ world.old) }
{
    world.apply_next(k)
}

/// Returns the step in which a node, whose log has `log_len` entries, applies the entry of a slot.
fn application_step(node: u8, log_len: u32, slot: u32, verdict: Verdict) -> Step
    ensures { result ≡ application_of node log_len slot verdict }
{
    Step {
        node,
        act: Act::Apply { slot, verdict },
        first_post: 0,
        end_post: 0,
        log_len_before: log_len,
        log_len_after: log_len,
    }
}
