//! Stages the steps of a proposer that gathers pages of promises. A node is heard once all pages of
//! its promise are received.
ghost use Rattle.std.specs.Prelude.{◌≡◌, ◌<◌, ◌≤◌, ◌++◌, ◌∷◌, [], IfOk, Some, List, length};
ghost use Rattle.std.specs.List.{AllByRecursion};
ghost use Rattle.slots.specs.declared.slots.TheConstants.{SLOTS};

use crate::ballot::Ballot;
use crate::leading::lead_posts;
use crate::node::NodeCore;
use crate::packet::{Reports, copy_reports};
use crate::promise_pages::{PagesWithDelivered, first_missing_after};
use crate::proposer::{Heard, ProposerUpdate, Role, is_heard, marks_of};
use crate::ready::Ready;
use crate::value::Value;
use std::alloc::AllocError;

impl<V: Value> NodeCore<V> {
    ghost use Rattle.synod.specs.Weights.{is_quorum};
    ghost use Rattle.synod.specs.Packets.{IsPage, IsReport};
    ghost use Rattle.synod.specs.Node.{is_heard};
    ghost use Rattle.synod.specs.Proposer.{on_promise, on_page_of, leads_with_page, receives_page};
    ghost use Rattle.synod.specs.Proposer.{receives_last_page};
    ghost use Rattle.synod.specs.Step.{PreservesInvariant};
    ghost use Rattle.synod.specs.Capacity.{KeepsCapacity};
    ghost use Rattle.synod.specs.Ready.{IsReadyFor};

    /// Stages adding a page, unless it was received before.
    fn stage_added_page(
        &mut self,
        node: u8,
        page: u32,
        reports: &Reports<V>,
    ) -> Result<Ready<V>, AllocError>
        requires node { node < length self.old.node.pages }
        requires page { page < SLOTS }
        requires preserves { PreservesInvariant (length self.old.node.weights)
            (receives_page self.old.node node page reports.now) }
        ensures ready { IfOk result (IsReadyFor self.new (receives_page self.old.node node page reports.now)) }
        ensures node { self.new.node ≡ self.old.node }
        ensures capacity { KeepsCapacity self.old self.new }
    {
        if self.proposer.pages().get(node, page).is_some() {
            return Ok(self.stage_nothing());
        }
        self.proposer.reserve_page(node, page)?;
        let reports = copy_reports(self.alloc, reports)?;
        let update = ProposerUpdate::AddPage {
            node,
            page,
            reports,
        };
        Ok(self.stage_proposer_update(update, Vec::new(self.alloc)))
    }

    /// Stages adding a page that completes a promise without completing a quorum.
    fn stage_complete_promise(
        &mut self,
        heard: Heard,
        page: u32,
        reports: &Reports<V>,
    ) -> Result<Ready<V>, AllocError>
        requires node { heard.node < length self.old.node.pages }
        requires page { page < SLOTS }
        requires preserves { PreservesInvariant (length self.old.node.weights)
            (receives_last_page self.old.node heard page reports.now) }
        ensures ready { IfOk result (IsReadyFor self.new (receives_last_page self.old.node heard page reports.now)) }
        ensures node { self.new.node ≡ self.old.node }
        ensures capacity { KeepsCapacity self.old self.new }
    {
        if self.proposer.pages().get(heard.node, page).is_some() {
            self.proposer.reserve_heard()?;
            let update = ProposerUpdate::AddHeard(heard);
            return Ok(self.stage_proposer_update(update, Vec::new(self.alloc)));
        }
        self.proposer.reserve_page(heard.node, page)?;
        self.proposer.reserve_heard()?;
        let reports = copy_reports(self.alloc, reports)?;
        let update = ProposerUpdate::CompletePromise {
            heard,
            page,
            reports,
        };
        Ok(self.stage_proposer_update(update, Vec::new(self.alloc)))
    }

    /// Returns whether the nodes heard are a quorum.
    fn has_heard_quorum(&self, heard: &[Heard]) -> bool
        ensures { result ≡ is_quorum self.now.node.weights (is_heard heard.now) }
    {
        let marks = marks_of(heard);
        self.weights.is_quorum(&marks)
    }

    /// Stages the step of a page for the ballot in preparation, from a node that is not heard yet.
    fn stage_page(
        &mut self,
        ballot: Ballot,
        first: u32,
        heard: Heard,
        page: u32,
        reports: &Reports<V>,
    ) -> Result<Ready<V>, AllocError>
        requires node { heard.node < length self.old.node.pages }
        requires first { first ≤ SLOTS }
        requires page { page < SLOTS }
        requires each { AllByRecursion IsReport reports.now }
        requires preserves { PreservesInvariant (length self.old.node.weights)
            (on_page_of self.old.node ballot first heard page reports.now) }
        ensures ready { IfOk result
            (IsReadyFor self.new (on_page_of self.old.node ballot first heard page reports.now)) }
        ensures node { self.new.node ≡ self.old.node }
        ensures capacity { KeepsCapacity self.old self.new }
    {
        let first_missing = first_missing_after(self.proposer.pages(), heard.node, page);
        if first_missing < heard.count {
            return self.stage_added_page(heard.node, page, reports);
        }
        let nodes = self.heard_with(heard)?;
        if self.has_heard_quorum(&nodes) {
            self.stage_lead(ballot, first, heard.node, page, reports, &nodes)
        } else {
            self.stage_complete_promise(heard, page, reports)
        }
    }

    /// Returns the nodes heard and one more.
    fn heard_with(&self, heard: Heard) -> Result<Vec<Heard>, AllocError>
        ensures { IfOk result (λ nodes. nodes.items ≡ self.now.node.heard ++ heard ∷ []) }
    {
        let mut nodes = Vec::from_slice(self.alloc, self.proposer.heard())?;
        nodes.push(heard)?;
        Ok(nodes)
    }

    /// Stages the start of leading, once a quorum is heard.
    fn stage_lead(
        &self,
        ballot: Ballot,
        first: u32,
        node: u8,
        page: u32,
        reports: &Reports<V>,
        heard: &[Heard],
    ) -> Result<Ready<V>, AllocError>
        requires node { node < length self.now.node.pages }
        requires first { first ≤ SLOTS }
        requires each { AllByRecursion IsReport reports.now }
        requires preserves { PreservesInvariant (length self.now.node.weights)
            (leads_with_page self.now.node ballot first node page reports.now heard.now) }
        ensures { IfOk result
            (IsReadyFor self.now (leads_with_page self.now.node ballot first node page reports.now heard.now)) }
    {
        let delivered = PagesWithDelivered {
            pages: self.proposer.pages(),
            node,
            page,
            reports,
        };
        let waiting = self.proposer.waiting();
        let lead = lead_posts(
            self.alloc,
            self.me,
            &self.weights,
            ballot,
            first,
            &delivered,
            heard,
            waiting,
        )?;
        let update = ProposerUpdate::Lead {
            ballot,
            next: lead.next,
            proposed: lead.proposed,
        };
        Ok(self.stage_proposer_update(update, lead.posts))
    }

    /// Stages the step of a page of a Promise.
    pub(crate) fn stage_promise(
        &mut self,
        from: u8,
        ballot: Ballot,
        page: u32,
        count: u32,
        reports: &Reports<V>,
    ) -> Result<Ready<V>, AllocError>
        requires page { IsPage page count reports.now }
        requires preserves { PreservesInvariant (length self.old.node.weights)
            (on_promise self.old.node from ballot page count reports.now) }
        ensures ready { IfOk result
            (IsReadyFor self.new (on_promise self.old.node from ballot page count reports.now)) }
        ensures node { self.new.node ≡ self.old.node }
        ensures capacity { KeepsCapacity self.old self.new }
    {
        let Role::Preparing { ballot: at, first } = self.proposer.role() else {
            return Ok(self.stage_nothing());
        };
        if !ballot.is_same(at) {
            return Ok(self.stage_nothing());
        }
        if is_heard(self.proposer.heard(), from) {
            return Ok(self.stage_nothing());
        }
        // While it prepares, a proposer has a map of pages for each node, but no invariant says so.
        if from as usize >= self.proposer.pages().node_count() {
            return Ok(self.stage_nothing());
        }
        let heard = Heard { node: from, count };
        self.stage_page(at, first, heard, page - 1, reports)
    }
}
