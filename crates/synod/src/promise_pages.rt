//! The pages of promises that a proposer has received, by node and then by index, from 0. The index
//! of a page is one less than its number in the packet.
ghost use Rattle.std.specs.Prelude.{◌≡◌, ◌<◌, ◌≤◌, List, OnOk, IfOk, Some, None, MatchOption};
ghost use Rattle.std.specs.Prelude.{length, slice_index_or};
ghost use Rattle.slots.specs.declared.slots.TheConstants.{SLOTS};
ghost use Rattle.slots.specs.FiniteMap.{entry_at, put_at, front_of};
ghost use Rattle.synod.specs.declared.packet.SlotReport.{SlotReport};
ghost use Rattle.synod.specs.Node.{no_pages, pages_from, page_of, with_page};
ghost use Rattle.synod.specs.Stored.ReceivedPages.{entries_of, capacities_of, put_page};
ghost use Rattle.synod.specs.Capacity.{KeepsCapacities};

use crate::packet::Reports;
use crate::weights::Weights;
use slots::Slots;
use std::alloc::{AllocError, Global};
use std::marker::Model;

/// The received pages: for each node a finite map from indexes to pages.
#[derive(Drop)]
pub struct ReceivedPages<V> {
    by_node: Vec<Slots<Reports<V>>>,
}

impl<V> Model for ReceivedPages<V> {
    ghost use Rattle.std.specs.Prelude.{List};
    ghost use Rattle.slots.specs.FiniteMap.{SlotsView};
    ghost use Rattle.synod.specs.declared.packet.SlotReport.{SlotReport};

    ghost Value = { List (SlotsView (List (SlotReport V))) };

    ghost view = { λ p. p.by_node.items };
}

impl<V: Drop> ReceivedPages<V> {
    ghost use Rattle.std.specs.Prelude.{[]};

    /// Creates an empty list of maps. It does not allocate.
    pub(crate) fn empty(alloc: Global) -> Self
        ensures { result ≡ [] }
    {
        ReceivedPages {
            by_node: Vec::new(alloc),
        }
    }

    /// Creates an empty map for each node.
    pub(crate) fn for_nodes(alloc: Global, weights: &Weights) -> Result<Self, AllocError>
        ensures { IfOk result (λ pages. entries_of pages ≡ no_pages weights.now) }
    {
        let mut by_node = Vec::new(alloc);
        for _weight in weights.as_slice() {
            by_node.push(Slots::new(alloc))?;
        }
        Ok(ReceivedPages { by_node })
    }

    /// Reserves capacity for a page. The pages are unchanged.
    pub(crate) fn reserve(&mut self, node: u8, page: u32) -> Result<(), AllocError>
        requires node { node < length self.old }
        requires page { page < SLOTS }
        ensures ok { OnOk result (page < slice_index_or (capacities_of self.new) node 0) }
        ensures pages { entries_of self.new ≡ entries_of self.old }
        ensures capacities { KeepsCapacities (capacities_of self.old) (capacities_of self.new) }
    {
        let pages = &mut self.by_node[node as usize];
        pages.room(page)
    }

    /// Adds a page. It does not allocate.
    pub(crate) fn put(&mut self, node: u8, page: u32, reports: Reports<V>)
        requires { page < slice_index_or (capacities_of self.old) node 0 }
        ensures { entries_of self.new ≡ put_page (entries_of self.old) node page reports }
    {
        let pages = &mut self.by_node[node as usize];
        pages.put(page, reports);
    }

    /// Returns a page of a node, or `None` if it was not received.
    pub(crate) fn get(&self, node: u8, page: u32) -> Option<&Reports<V>>
        ensures { MatchOption result (page_of (entries_of self.now) node page ≡ None)
            (λ reports. page_of (entries_of self.now) node page ≡ Some reports.now) }
    {
        match self.by_node.get(node as usize) {
            Some(pages) => pages.get(page),
            None => None,
        }
    }

    /// Returns the index of the first missing page of a node.
    pub(crate) fn first_missing(&self, node: u8) -> u32
        ensures { result ≡ front_of (pages_from (entries_of self.now) node) }
    {
        match self.by_node.get(node as usize) {
            Some(pages) => pages.front(),
            None => 0,
        }
    }

    /// Returns the number of nodes that have a map.
    pub(crate) fn node_count(&self) -> usize
        ensures { result ≡ length self.now }
    {
        self.by_node.len()
    }

    /// Returns the index of the first missing page of a node once `page` is put.
    pub(crate) fn first_missing_with(&self, node: u8, page: u32) -> u32
        requires node { node < length self.now }
        requires page { page < SLOTS }
        ensures { (reports : List (SlotReport V))
            → front_of (put_at (pages_from (entries_of self.now) node) page reports) ≡ result }
    {
        let pages = &self.by_node[node as usize];
        pages.front_with(page)
    }
}

/// Returns the index of the first missing page of a node once `page` is received. If it was
/// received before, nothing changes.
pub(crate) fn first_missing_after<V: Drop>(pages: &ReceivedPages<V>, node: u8, page: u32) -> u32
    requires node { node < length pages.now }
    requires page { page < SLOTS }
    ensures { (reports : List (SlotReport V))
        → front_of (pages_from (with_page (entries_of pages.now) node page reports) node) ≡ result }
{
    if pages.get(node, page).is_some() {
        pages.first_missing(node)
    } else {
        pages.first_missing_with(node, page)
    }
}

/// The pages received before, and the one just delivered.
#[derive(Drop)]
pub struct PagesWithDelivered<'a, V> {
    pub pages: &'a ReceivedPages<V>,
    pub node: u8,
    pub page: u32,
    pub reports: &'a Reports<V>,
}

impl<V: Drop> PagesWithDelivered<'_, V> {
    ghost use Rattle.synod.specs.Stored.ReceivedPages.{pages_after_delivery};

    /// Returns a page of a node, or `None` if it was neither received before nor just delivered.
    pub(crate) fn get(&self, node: u8, page: u32) -> Option<&Reports<V>>
        requires { self.now.node < length self.now.pages.now }
        ensures { MatchOption result (page_of (pages_after_delivery self.now) node page ≡ None)
            (λ reports. page_of (pages_after_delivery self.now) node page ≡ Some reports.now) }
    {
        let received = self.pages.get(node, page);
        if received.is_some() {
            return received;
        }
        if node != self.node {
            return None;
        }
        if page != self.page {
            return None;
        }
        Some(self.reports)
    }
}
