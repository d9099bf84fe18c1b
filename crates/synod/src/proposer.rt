//! The proposer: its role, the pages of promises that it has received, and the waiting values.
ghost use Rattle.std.specs.Prelude.{◌≡◌, ◌<◌, ◌≤◌, ℕ, OnOk, IfOk, Some, false, length};
ghost use Rattle.std.specs.Prelude.{slice_index_or};

use crate::ballot::Ballot;
use crate::packet::Reports;
use crate::promise_pages::ReceivedPages;
use crate::weights::MAX_NODES;
use std::alloc::{AllocError, Global};
use std::marker::Model;

/// The maximum number of values that wait at a node.
pub const MAX_WAITING: usize = 64;

/// The role of a proposer.
///
/// Source: Lamport, Paxos Made Simple, 2.2 (its two phases) and 2.4 (a distinguished proposer).
#[derive(Clone, Copy, PartialEq, Eq)]
pub enum Role {
    /// It has no ballot.
    Idle,
    /// It has sent a Prepare for all slots from `first` on.
    Preparing { ballot: Ballot, first: u32 },
    /// A quorum has promised its ballot; `next` is the slot of its next proposal.
    Leading { ballot: Ballot, next: u32 },
}

impl Role {
    ghost use Rattle.synod.specs.Proposer.{is_at};

    /// Returns whether the proposer prepares or leads at `ballot`.
    pub fn is_at(self, ballot: Ballot) -> bool
        ensures { result ≡ is_at self ballot }
    {
        match self {
            Role::Idle => false,
            Role::Preparing { ballot: at, .. } | Role::Leading { ballot: at, .. } => at.is_same(
                ballot,
            ),
        }
    }
}

/// A node that is heard: all pages of its promise are received. `count` is their number.
#[derive(Clone, Copy, PartialEq, Eq)]
pub struct Heard {
    pub node: u8,
    pub count: u32,
}

/// The change that a step makes to the proposer.
#[derive(Drop)]
pub enum ProposerUpdate<V> {
    /// A value is added to those that wait.
    AddWaiting(V),
    /// It proposed at the slot before `next`.
    Propose {
        ballot: Ballot,
        next: u32,
    },
    /// It begins a ballot, with empty maps of pages.
    Begin {
        ballot: Ballot,
        first: u32,
        pages: ReceivedPages<V>,
    },
    /// A page of a promise arrived.
    AddPage {
        node: u8,
        page: u32,
        reports: Reports<V>,
    },
    /// A page that was received before arrived again, and no page of its promise is missing: its
    /// sender is heard.
    AddHeard(Heard),
    /// The page that completes a promise arrived.
    CompletePromise {
        heard: Heard,
        page: u32,
        reports: Reports<V>,
    },
    /// It begins to lead, and has proposed the first `proposed` waiting values.
    Lead {
        ballot: Ballot,
        next: u32,
        proposed: usize,
    },
    /// It gives up its ballot.
    Idle,
}

/// The proposer's part of a node.
#[derive(Drop)]
pub struct Proposer<V> {
    alloc: Global,
    role: Role,
    pages: ReceivedPages<V>,
    heard: Vec<Heard>,
    waiting: Vec<V>,
}

impl<V> Model for Proposer<V> {
    ghost use Rattle.std.specs.Prelude.{vec_capacity};
    ghost use Rattle.synod.specs.Core.{ProposerView};
    ghost use Rattle.synod.specs.Stored.ReceivedPages.{entries_of, capacities_of};

    ghost Value = { ProposerView V };

    ghost view = { λ p. record {
      state = record { role = p.role; pages = entries_of p.pages; heard = p.heard.items; waiting = p.waiting.items };
      page_capacities = capacities_of p.pages;
      heard_capacity = vec_capacity p.heard;
      waiting_capacity = vec_capacity p.waiting;
    } };
}

impl<V: Drop> Proposer<V> {
    ghost use Rattle.std.specs.Prelude.{[]};
    ghost use Rattle.synod.specs.declared.proposer.Role.TheVariants.{Idle};
    ghost use Rattle.slots.specs.declared.slots.TheConstants.{SLOTS};
    ghost use Rattle.synod.specs.Stored.ReceivedPages.{entries_of, capacities_of};
    ghost use Rattle.synod.specs.Updates.{proposer_after, CanUpdateProposer};
    ghost use Rattle.synod.specs.Capacity.{KeepsCapacities};

    /// Creates an idle proposer. It does not allocate.
    pub(crate) fn new(alloc: Global) -> Self
        ensures role { result.state.role ≡ Idle }
        ensures pages { result.state.pages ≡ [] }
        ensures heard { result.state.heard ≡ [] }
        ensures waiting { result.state.waiting ≡ [] }
    {
        Proposer {
            alloc,
            role: Role::Idle,
            pages: ReceivedPages::empty(alloc),
            heard: Vec::new(alloc),
            waiting: Vec::new(alloc),
        }
    }

    /// Returns the role.
    pub(crate) fn role(&self) -> Role
        ensures { result ≡ self.now.state.role }
    {
        self.role
    }

    /// Returns the waiting values, oldest first.
    pub(crate) fn waiting(&self) -> &[V]
        ensures { result.now ≡ self.now.state.waiting }
    {
        self.waiting.as_slice()
    }

    /// Returns the nodes whose promises are complete, in the order of completion.
    pub(crate) fn heard(&self) -> &[Heard]
        ensures { result.now ≡ self.now.state.heard }
    {
        self.heard.as_slice()
    }

    /// Returns the received pages.
    pub(crate) fn pages(&self) -> &ReceivedPages<V>
        ensures pages { entries_of result.now ≡ self.now.state.pages }
        ensures capacities { capacities_of result.now ≡ self.now.page_capacities }
    {
        &self.pages
    }

    /// Reserves capacity for a page.
    pub(crate) fn reserve_page(&mut self, node: u8, page: u32) -> Result<(), AllocError>
        requires node { node < length self.old.state.pages }
        requires page { page < SLOTS }
        ensures ok { OnOk result (page < slice_index_or self.new.page_capacities node 0) }
        ensures state { self.new.state ≡ self.old.state }
        ensures pages { KeepsCapacities self.old.page_capacities self.new.page_capacities }
        ensures heard { self.new.heard_capacity ≡ self.old.heard_capacity }
        ensures waiting { self.new.waiting_capacity ≡ self.old.waiting_capacity }
    {
        self.pages.reserve(node, page)
    }

    /// Reserves capacity for a waiting value.
    pub(crate) fn reserve_waiting(&mut self) -> Result<(), AllocError>
        ensures ok { OnOk result (length self.new.state.waiting < self.new.waiting_capacity) }
        ensures state { self.new.state ≡ self.old.state }
        ensures pages { self.new.page_capacities ≡ self.old.page_capacities }
        ensures heard { self.new.heard_capacity ≡ self.old.heard_capacity }
        ensures waiting { self.old.waiting_capacity ≤ self.new.waiting_capacity }
    {
        self.waiting.reserve(1)
    }

    /// Reserves capacity for a node whose promise is complete.
    pub(crate) fn reserve_heard(&mut self) -> Result<(), AllocError>
        ensures ok { OnOk result (length self.new.state.heard < self.new.heard_capacity) }
        ensures state { self.new.state ≡ self.old.state }
        ensures pages { self.new.page_capacities ≡ self.old.page_capacities }
        ensures heard { self.old.heard_capacity ≤ self.new.heard_capacity }
        ensures waiting { self.new.waiting_capacity ≡ self.old.waiting_capacity }
    {
        self.heard.reserve(1)
    }

    /// Applies an update, if there is one. It does not allocate.
    pub(crate) fn apply_update(&mut self, update: Option<ProposerUpdate<V>>)
        requires { CanUpdateProposer self.old update }
        ensures { self.new.state ≡ proposer_after self.old.state update }
    {
        if let Some(update) = update {
            self.apply_some(update);
        }
    }

    /// Applies an update.
    fn apply_some(&mut self, update: ProposerUpdate<V>)
        requires { CanUpdateProposer self.old (Some update) }
        ensures { self.new.state ≡ proposer_after self.old.state (Some update) }
    {
        match update {
            ProposerUpdate::AddWaiting(value) => self.waiting.push_reserved(value),
            ProposerUpdate::Propose { ballot, next } => self.role = Role::Leading { ballot, next },
            ProposerUpdate::Begin {
                ballot,
                first,
                pages,
            } => self.begin(ballot, first, pages),
            ProposerUpdate::AddPage {
                node,
                page,
                reports,
            } => self.pages.put(node, page, reports),
            ProposerUpdate::AddHeard(heard) => self.heard.push_reserved(heard),
            ProposerUpdate::CompletePromise {
                heard,
                page,
                reports,
            } => self.complete_promise(heard, page, reports),
            ProposerUpdate::Lead {
                ballot,
                next,
                proposed,
            } => self.lead(ballot, next, proposed),
            ProposerUpdate::Idle => self.role = Role::Idle,
        }
    }

    /// Begins a ballot, with empty maps of pages.
    fn begin(&mut self, ballot: Ballot, first: u32, pages: ReceivedPages<V>)
        ensures { self.new.state ≡ proposer_after self.old.state (Some (ProposerUpdate.Begin ballot first pages)) }
    {
        self.role = Role::Preparing { ballot, first };
        self.pages = pages;
        self.heard.clear();
    }

    /// Adds the page that completes a promise.
    fn complete_promise(&mut self, heard: Heard, page: u32, reports: Reports<V>)
        requires { CanUpdateProposer self.old (Some (ProposerUpdate.CompletePromise heard page reports)) }
        ensures { self.new.state
            ≡ proposer_after self.old.state (Some (ProposerUpdate.CompletePromise heard page reports)) }
    {
        self.pages.put(heard.node, page, reports);
        self.heard.push_reserved(heard);
    }

    /// Begins to lead: `next` is the slot of the next proposal, and the first `proposed` waiting
    /// values are removed.
    fn lead(&mut self, ballot: Ballot, next: u32, proposed: usize)
        requires { proposed ≤ length self.old.state.waiting }
        ensures { self.new.state ≡ proposer_after self.old.state (Some (ProposerUpdate.Lead ballot next proposed)) }
    {
        self.role = Role::Leading { ballot, next };
        self.pages = ReceivedPages::empty(self.alloc);
        self.heard.clear();
        self.waiting.drain(..proposed);
    }
}

ghost use Rattle.synod.specs.Node.{is_heard};

/// Returns whether a node is among those heard.
pub(crate) fn is_heard(heard: &[Heard], node: u8) -> bool
    ensures { result ≡ is_heard heard.now node }
{
    for one in heard {
        if one.node == node {
            return true;
        }
    }
    false
}

/// Returns a mark for each node that is heard.
pub(crate) fn marks_of(heard: &[Heard]) -> [bool; MAX_NODES]
    ensures { (k : ℕ) → k < MAX_NODES → slice_index_or result k false ≡ is_heard heard.now k }
{
    let mut marks = [false; MAX_NODES];
    for node in 0..MAX_NODES {
        marks[node] = is_heard(heard, node as u8);
    }
    marks
}
