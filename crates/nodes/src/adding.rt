//! Submitting an entry repeatedly until a verdict on it is known at a node.
ghost use Rattle.std.specs.Prelude.{◌≡◌, ◌≤◌, ◌<◌, Err, IfErr, IfOk, IsErr, IsOkUnless};
ghost use Rattle.net.specs.declared.event.Event.TheVariants.{Begin};
ghost use Rattle.net.specs.declared.fault.StepFault.TheVariants.{Apart, NoNode};
ghost use Rattle.nodes.specs.Words.{IsPrefixOf};
ghost use Rattle.nodes.specs.Desk.{IsPlayFault};
ghost use Rattle.nodes.specs.Adding.{IsAddFault, IsOutcome};

use crate::book::Naming;
use crate::desk::Desk;
use cluster::outcome_on;
use library::{Entry, Verdict};
use net::StepFault;
use std::sync::Wait;
use std::thread;
use synod::{Keep, Role};
use verify_pool::Gate;
use world::Carried;

/// The greatest number of times that an entry is submitted.
const MAX_TRIES: u32 = 17;

/// The least number of turns (calls of `yield_now`) to wait after the first try; it doubles with
/// each further try, up to `MAX_DOUBLINGS` times.
const FIRST_WAIT: u64 = 1024;

/// The greatest number of times that the wait doubles. So all waits together have fewer than
/// 10,000,000 turns.
const MAX_DOUBLINGS: u32 = 9;

/// The number of turns from one query for the outcome to the next. Each query takes the lock that
/// the node's thread needs.
const YIELDS_PER_QUERY: u64 = 64;

/// 2^64 divided by the golden ratio: its multiples modulo 2^64 are far from one another.
const GOLDEN: u64 = 0x9E37_79B9_7F4A_7C15;

impl<J: Naming, G: Gate, K: Keep<Carried>> Desk<J, G, K> {
    /// Submits an entry at node `k`, repeatedly until a verdict on it is known there. Returns the
    /// verdict, or `Repeat` if another entry was decided under this author and serial number;
    /// `None` if after 17 tries nothing is known there.
    ///
    /// The first try begins a ballot if the node does not lead, and each later try does in any
    /// case: a slot whose packets were lost stays open until a ballot proposes it again, even at a
    /// node that leads, and every later slot waits for it. Up to the tenth, each try waits longer
    /// than the one before it, and the waits of two nodes differ, so that two proposers do not keep
    /// preempting each other. An entry that is submitted several times is decided once.
    ///
    /// Errors: those of `submit` except `Busy`, and those of `begin`; `Apart` if the cell is not
    /// that of its node or a lock does not belong to the history; `Memory`. After an error the entry
    /// may still be decided. Cost: at most 17 offers, 17 ballots and 10,000,000 turns, a call of
    /// `Library::status` for each 64 turns, and one pass over the entries of the node.
    #[tactic(auto, using(crate::proofs::PrefixLemmas::prefix_trans, crate::proofs::DeskLemmas::add_within))]
    pub fn add<R: Wait>(
        &mut self,
        rt: &R,
        k: u8,
        entry: &Entry,
    ) -> Result<Option<Verdict>, StepFault>
        ensures seen { IsPrefixOf self.old.seen self.new.seen }
        ensures nodes { self.new.node_count ≡ self.old.node_count }
        ensures outcome { IfOk result (IsOutcome self.new.seen k entry.now) }
        ensures no_node { self.old.node_count ≤ k → IsErr result }
        ensures refused { IfErr result (IsAddFault self.old.seen self.new.seen k entry.now) }
    {
        for attempt in 0..MAX_TRIES {
            let known = self.try_to_add(rt, k, entry, attempt)?;
            if known.is_some() {
                return Ok(known);
            }
        }
        self.outcome(rt, k, entry)
    }

    /// Submits an entry at node `k` once, begins a ballot there if need be, and waits for the
    /// outcome. Returns the outcome, if it is known.
    #[tactic(auto, using(crate::proofs::PrefixLemmas::prefix_trans, crate::proofs::DeskLemmas::add_within, crate::proofs::DeskLemmas::add_begin))]
    fn try_to_add<R: Wait>(
        &mut self,
        rt: &R,
        k: u8,
        entry: &Entry,
        attempt: u32,
    ) -> Result<Option<Verdict>, StepFault>
        ensures seen { IsPrefixOf self.old.seen self.new.seen }
        ensures nodes { self.new.node_count ≡ self.old.node_count }
        ensures outcome { IfOk result (IsOutcome self.new.seen k entry.now) }
        ensures no_node { self.old.node_count ≤ k → IsErr result }
        ensures refused { IfErr result (IsAddFault self.old.seen self.new.seen k entry.now) }
    {
        self.submit_again(rt, k, entry)?;
        let known = self.outcome(rt, k, entry)?;
        if known.is_some() {
            return Ok(known);
        }
        self.begin_again(rt, k, attempt)?;
        self.await_outcome(rt, k, entry, wait_after(k, attempt))
    }

    /// Begins a ballot at node `k` unless this is the first attempt and the node leads.
    fn begin_again<R: Wait>(&mut self, rt: &R, k: u8, attempt: u32) -> Result<(), StepFault>
        ensures seen { IsPrefixOf self.old.seen self.new.seen }
        ensures nodes { self.new.node_count ≡ self.old.node_count }
        ensures refused { IfErr result (IsPlayFault self.old.seen self.new.seen (Begin k)) }
    {
        if attempt == 0 && self.leads(rt, k) {
            return Ok(());
        }
        self.begin(rt, k)
    }

    /// Submits a copy of the entry at node `k`. It has no effect if too many values wait there.
    fn submit_again<R: Wait>(&mut self, rt: &R, k: u8, entry: &Entry) -> Result<(), StepFault>
        ensures seen { IsPrefixOf self.old.seen self.new.seen }
        ensures nodes { self.new.node_count ≡ self.old.node_count }
        ensures refused { IfErr result (IsAddFault self.old.seen self.new.seen k entry.now) }
    {
        let copy = entry.copy()?;
        let answer = self.submit(rt, k, copy);
        if answer == Err(StepFault::Busy) {
            return Ok(());
        }
        answer
    }

    /// Returns whether node `k` leads. The answer is only a hint when to begin a ballot.
    fn leads<R: Wait>(&self, rt: &R, k: u8) -> bool {
        let shared_switch = self.shared.switch.lock(rt);
        match shared_switch.switch().state(k) {
            Ok(state) => matches!(state.role, Role::Leading { .. }),
            Err(_) => false,
        }
    }

    /// Returns the outcome of the entry at node `k` as soon as it is known, at the latest after
    /// `yields` turns.
    #[tactic(auto, using(crate::proofs::PrefixLemmas::prefix_trans))]
    fn await_outcome<R: Wait>(
        &mut self,
        rt: &R,
        k: u8,
        entry: &Entry,
        yields: u64,
    ) -> Result<Option<Verdict>, StepFault>
        ensures seen { IsPrefixOf self.old.seen self.new.seen }
        ensures nodes { self.new.node_count ≡ self.old.node_count }
        ensures outcome { IfOk result (IsOutcome self.new.seen k entry.now) }
        ensures no_node { self.old.node_count ≤ k → result ≡ Err NoNode }
        ensures only_apart { k < self.old.node_count → IsOkUnless result Apart }
    {
        for yielded in 0..yields {
            if yielded % YIELDS_PER_QUERY == 0 {
                self.pass_switch(rt);
                let known = self.outcome(rt, k, entry)?;
                if known.is_some() {
                    return Ok(known);
                }
            }
            thread::yield_now();
        }
        self.outcome(rt, k, entry)
    }

    /// Waits until nobody holds the switch. So no turn passes while a node stores an entry, which may
    /// take longer than all turns of a try.
    fn pass_switch<R: Wait>(&self, rt: &R) {
        let _switch = self.shared.switch.lock(rt);
    }

    /// Returns the outcome of the entry at node `k`, if it is known there.
    fn outcome<R: Wait>(
        &mut self,
        rt: &R,
        k: u8,
        entry: &Entry,
    ) -> Result<Option<Verdict>, StepFault>
        ensures seen { IsPrefixOf self.old.seen self.new.seen }
        ensures nodes { self.new.node_count ≡ self.old.node_count }
        ensures outcome { IfOk result (IsOutcome self.new.seen k entry.now) }
        ensures no_node { self.old.node_count ≤ k → result ≡ Err NoNode }
        ensures only_apart { k < self.old.node_count → IsOkUnless result Apart }
    {
        self.ask(rt, k, |cell| outcome_on(cell, entry))
    }
}

/// Returns the number of turns that node `k` waits after the try of number `attempt`, from 0:
/// `FIRST_WAIT`, doubled for each try up to `MAX_DOUBLINGS` times, plus a fraction of that, which
/// differs from node to node and from try to try.
fn wait_after(k: u8, attempt: u32) -> u64 {
    let least = FIRST_WAIT << attempt.min(MAX_DOUBLINGS);
    let fraction = (u64::from(attempt) * 256 + u64::from(k) + 1).wrapping_mul(GOLDEN) >> 32;
    least.saturating_add(fraction.saturating_mul(least) >> 32)
}
