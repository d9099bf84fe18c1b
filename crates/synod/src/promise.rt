//! Builds the packets of a promise: reports of the accepted entries from a slot on, in pages.
ghost use Rattle.std.specs.Prelude.{◌≡◌, ◌≤◌, ◌<◌, IfOk, length};
ghost use Rattle.slots.specs.declared.slots.TheConstants.{SLOTS};
ghost use Rattle.synod.specs.declared.packet.TheConstants.{MAX_PAGES};
ghost use Rattle.synod.specs.PromisePages.{pages_of};
ghost use Rattle.synod.specs.Acceptor.{reports_from, promise_posts};

use crate::ballot::Ballot;
use crate::packet::{Body, PAGE_REPORTS, Packet, Reports, SlotReport};
use crate::record::Record;
use crate::value::{Value, copy_value};
use std::alloc::{AllocError, Global};

/// Returns the reports of the entries from `first` on, in order of slots, cut into pages.
fn report_pages<V: Value>(
    alloc: Global,
    stored: &Record<V>,
    first: u32,
) -> Result<Vec<Reports<V>>, AllocError>
    ensures pages { IfOk result (λ pages. pages.items ≡ pages_of (reports_from first 0 stored.now.kept.accepted)) }
    ensures few { IfOk result (λ pages. length pages.items ≤ MAX_PAGES) }
{
    let mut pages = Vec::new(alloc);
    let mut page = Vec::new(alloc);
    for slot in first..stored.top() {
        if let Some(entry) = stored.get(slot) {
            if page.len() == PAGE_REPORTS {
                pages.push(Reports::new(page))?;
                page = Vec::new(alloc);
            }
            page.push(SlotReport {
                slot,
                ballot: entry.ballot,
                value: copy_value(&entry.value)?,
            })?;
        }
    }
    pages.push(Reports::new(page))?;
    Ok(pages)
}

/// Returns the packets of a promise, one for each page.
fn post_pages<V: Value>(
    alloc: Global,
    me: u8,
    to: u8,
    ballot: Ballot,
    pages: Vec<Reports<V>>,
) -> Result<Vec<Packet<V>>, AllocError>
    requires { length pages.items ≤ MAX_PAGES }
    ensures { IfOk result (λ posts. posts.items ≡ promise_posts me to ballot pages.items) }
{
    let count = pages.len() as u32;
    let mut posts = Vec::new(alloc);
    let mut number = 1;
    for reports in pages {
        posts.push(Packet {
            from: me,
            to,
            body: Body::Promise {
                ballot,
                page: number,
                count,
                reports,
            },
        })?;
        number += 1;
    }
    Ok(posts)
}

/// Returns the packets of a promise: reports of the entries accepted from `first` on, in pages.
/// `stored` is the record of the node.
///
/// Cost: the slots from `first` to the top of the record, and the reports.
pub(crate) fn promise_posts<V: Value>(
    alloc: Global,
    stored: &Record<V>,
    me: u8,
    to: u8,
    ballot: Ballot,
    first: u32,
) -> Result<Vec<Packet<V>>, AllocError>
    ensures { IfOk result
        (λ posts. posts.items ≡ promise_posts me to ballot (pages_of (reports_from first 0 stored.now.kept.accepted))) }
{
    let pages = report_pages(alloc, stored, first)?;
    post_pages(alloc, me, to, ballot, pages)
}
