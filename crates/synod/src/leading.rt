//! Builds the proposals of a new leader: at each slot the value of the highest ballot reported
//! there.
ghost use Rattle.std.specs.Prelude.{◌≡◌, ◌<◌, ◌≤◌, ◌+◌, ◌-◌, ◌++◌, [], ◌∷◌, ℕ, List, Option, Some};
ghost use Rattle.std.specs.Prelude.{None, max, min, map, length, OnOk, IfOk, slice_index_or};
ghost use Rattle.std.specs.List.{AllByRecursion};
ghost use Rattle.slots.specs.declared.slots.TheConstants.{SLOTS};
ghost use Rattle.synod.specs.declared.packet.SlotReport.{SlotReport};
ghost use Rattle.synod.specs.Packets.{IsReport, accept_posts};
ghost use Rattle.std.specs.Option.{option_copied};
ghost use Rattle.synod.specs.Proposer.{top_or_zero, top_or_first, highest_at, reported_value};
ghost use Rattle.synod.specs.Proposer.{proposed_values};
ghost use Rattle.synod.specs.PromisePages.{joined_pages};
ghost use Rattle.synod.specs.Node.{pages_from};
ghost use Rattle.synod.specs.Stored.ReceivedPages.{pages_after_delivery, reports_after_delivery};
ghost use Rattle.synod.specs.HighestReports.{reports_of_pages, IsHighestTable, as_entries};
ghost use Rattle.synod.specs.HighestReports.{IsLeadResult};

use crate::ballot::Ballot;
use crate::packet::{Packet, SlotReport};
use crate::posts::{Broadcast, post_broadcast};
use crate::promise_pages::PagesWithDelivered;
use crate::proposer::Heard;
use crate::value::{Value, copy_value};
use crate::weights::Weights;
use slots::SLOTS;
use std::alloc::{AllocError, Global};

/// Returns one above the greatest slot of the reports, or `top` if that is greater.
fn top_with_page<V>(top: u32, reports: &[SlotReport<V>]) -> u32
    requires { AllByRecursion IsReport reports.now }
    ensures { result ≡ max top (top_or_zero reports.now) }
{
    let mut most = top;
    for report in reports {
        most = std::cmp::max(most, report.slot + 1);
    }
    most
}

/// Returns one above the greatest slot reported, or `first` if nothing is reported.
fn top_of_reports<V>(first: u32, pages: &[&[SlotReport<V>]]) -> u32
    requires { AllByRecursion IsReport (reports_of_pages pages.now) }
    ensures { result ≡ top_or_first first (reports_of_pages pages.now) }
{
    let mut top = 0;
    for reports in pages {
        top = top_with_page(top, reports);
    }
    if top == 0 { first } else { top }
}

/// Enters a report in the table if its ballot is higher than that of the report at its slot.
/// Element `i` of the table is for slot `first + i`; reports of other slots are ignored.
fn enter_report<'a, V>(
    table: &mut Vec<Option<&'a SlotReport<V>>>,
    first: u32,
    report: &'a SlotReport<V>,
)
    ensures highest { (reports : List (SlotReport V)) → IsHighestTable first table.old.items reports
        → IsHighestTable first table.new.items (reports ++ report.now ∷ []) }
    ensures slots { length table.new.items ≡ length table.old.items }
{
    if report.slot < first {
        return;
    }
    let place = (report.slot - first) as usize;
    if place >= table.len() {
        return;
    }
    let is_higher = match table[place] {
        Some(best) => best.ballot.is_below(report.ballot),
        None => true,
    };
    if is_higher {
        table[place] = Some(report);
    }
}

/// Enters the reports of a page in the table.
fn enter_page<'a, V>(
    table: &mut Vec<Option<&'a SlotReport<V>>>,
    first: u32,
    page: &'a [SlotReport<V>],
)
    ensures highest { (reports : List (SlotReport V)) → IsHighestTable first table.old.items reports
        → IsHighestTable first table.new.items (reports ++ page.now) }
    ensures slots { length table.new.items ≡ length table.old.items }
{
    for report in page {
        enter_report(table, first, report);
    }
}

/// Returns the report of the highest ballot in all pages for each slot from `first` up to `top`,
/// `top` excluded.
fn highest_reports<'a, V>(
    alloc: Global,
    first: u32,
    top: u32,
    pages: &[&'a [SlotReport<V>]],
) -> Result<Vec<Option<&'a SlotReport<V>>>, AllocError>
    ensures highest { IfOk result (λ table. IsHighestTable first table.items (reports_of_pages pages.now)) }
    ensures slots { IfOk result (λ table. length table.items ≡ top - first) }
{
    let mut table = Vec::new(alloc);
    for _slot in first..top {
        table.push(None)?;
    }
    for page in pages {
        enter_page(&mut table, first, page);
    }
    Ok(table)
}

/// Returns the value to propose at a slot: that of its highest report, or the no-operation.
fn value_to_propose<V: Value>(highest: Option<&SlotReport<V>>) -> Result<Option<V>, AllocError>
    ensures { IfOk result (λ value. value ≡ reported_value (option_copied highest.entry)) }
{
    match highest {
        Some(report) => copy_value(&report.value),
        None => Ok(None),
    }
}

/// Appends an Accept to all nodes for each slot from `first` up to `top`, `top` excluded, with the
/// value of the report of the highest ballot.
fn post_reported_values<V: Value>(
    alloc: Global,
    posts: &mut Vec<Packet<V>>,
    me: u8,
    weights: &Weights,
    ballot: Ballot,
    first: u32,
    top: u32,
    pages: &[&[SlotReport<V>]],
) -> Result<(), AllocError>
    ensures { OnOk result
        (posts.new.items ≡ posts.old.items
        ++ accept_posts me weights.now ballot first
        (proposed_values (reports_of_pages pages.now) first (top - first))) }
{
    let table = highest_reports(alloc, first, top, pages)?;
    let mut slot = first;
    for highest in &table {
        let value = value_to_propose(*highest)?;
        let message = Broadcast::Accept {
            ballot,
            slot,
            value: &value,
        };
        post_broadcast(posts, me, weights, &message)?;
        slot += 1;
    }
    Ok(())
}

/// Appends those of the first `count` pages of a node that were received, in order.
fn add_pages<'a, V: Drop>(
    all: &mut Vec<&'a [SlotReport<V>]>,
    pages: &'a PagesWithDelivered<'a, V>,
    node: u8,
    count: u32,
) -> Result<(), AllocError>
    requires { pages.now.node < length pages.now.pages.now }
    ensures { OnOk result
        (reports_of_pages all.new.items ≡ reports_of_pages all.old.items
        ++ joined_pages (pages_from (pages_after_delivery pages.now) node) count) }
{
    for page in 0..count {
        if let Some(reports) = pages.get(node, page) {
            all.push(reports.as_slice())?;
        }
    }
    Ok(())
}

/// Returns the pages of all nodes heard, in the order in which they were heard.
fn heard_pages<'a, V: Drop>(
    alloc: Global,
    pages: &'a PagesWithDelivered<'a, V>,
    heard: &[Heard],
) -> Result<Vec<&'a [SlotReport<V>]>, AllocError>
    requires { pages.now.node < length pages.now.pages.now }
    ensures { IfOk result (λ all. reports_of_pages all.items ≡ reports_after_delivery pages.now heard.now) }
{
    let mut all = Vec::new(alloc);
    for node in heard {
        add_pages(&mut all, pages, node.node, node.count)?;
    }
    Ok(all)
}

/// Appends an Accept to all nodes for each waiting value, from slot `top` on.
fn post_waiting<V: Value>(
    posts: &mut Vec<Packet<V>>,
    me: u8,
    weights: &Weights,
    ballot: Ballot,
    top: u32,
    waiting: &[V],
) -> Result<(), AllocError>
    requires { top + length waiting.now ≤ SLOTS }
    ensures { OnOk result
        (posts.new.items ≡ posts.old.items ++ accept_posts me weights.now ballot top (as_entries waiting.now)) }
{
    let mut slot = top;
    for value in waiting {
        let value = Some(value.copy()?);
        let message = Broadcast::Accept {
            ballot,
            slot,
            value: &value,
        };
        post_broadcast(posts, me, weights, &message)?;
        slot += 1;
    }
    Ok(())
}

/// Returns the lesser of two counts.
fn lesser(a: usize, b: usize) -> usize
    ensures { result ≡ min a b }
{
    std::cmp::min(a, b)
}

/// The posts of a new leader, its next slot, and the number of waiting values that it proposes.
#[derive(Drop)]
pub(crate) struct Lead<V> {
    pub posts: Vec<Packet<V>>,
    pub next: u32,
    pub proposed: usize,
}

/// Returns the proposals of a new leader. At each slot from `first` up to the greatest one reported
/// it proposes the value reported there under the highest ballot, or the no-operation if none is
/// reported there. From the next slot on, or from `first` on if nothing is reported, it proposes
/// waiting values while slots are left.
///
/// Cost: the reports, the slots from `first` to the greatest one reported, and the posts.
pub(crate) fn lead_posts<V: Value>(
    alloc: Global,
    me: u8,
    weights: &Weights,
    ballot: Ballot,
    first: u32,
    pages: &PagesWithDelivered<V>,
    heard: &[Heard],
    waiting: &[V],
) -> Result<Lead<V>, AllocError>
    requires node { pages.now.node < length pages.now.pages.now }
    requires first { first ≤ SLOTS }
    requires reports { AllByRecursion IsReport (reports_after_delivery pages.now heard.now) }
    ensures { IfOk result
        (IsLeadResult me weights.now ballot first (reports_after_delivery pages.now heard.now) waiting.now) }
{
    let all = heard_pages(alloc, pages, heard)?;
    let top = top_of_reports(first, &all);
    let mut posts = Vec::new(alloc);
    post_reported_values(alloc, &mut posts, me, weights, ballot, first, top, &all)?;
    let proposed = lesser(waiting.len(), (SLOTS - top) as usize);
    post_waiting(&mut posts, me, weights, ballot, top, &waiting[..proposed])?;
    Ok(Lead {
        posts,
        next: top + proposed as u32,
        proposed,
    })
}
