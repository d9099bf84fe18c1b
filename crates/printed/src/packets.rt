//! Packets, ballots and entries as text.
ghost use Rattle.std.specs.Prelude.{◌≡◌, ◌++◌, codes, decimal, flat_map, option_map, OnOk};
ghost use Rattle.world.specs.Carried.{entry_of};
ghost use Rattle.printed.specs.Printed.{ballot_text, entry_text, report_text, page_text};
ghost use Rattle.printed.specs.Printed.{proposal_text, body_text, packet_text};

use library::Entry;
use std::alloc::AllocError;
use synod::{Ballot, Body, Packet, SlotReport};
use text::push_number;
use world::Carried;

/// Appends `FROM>TO`, a space, and the body of the packet.
pub fn push_packet(text: &mut Vec<u8>, packet: &Packet<Carried>) -> Result<(), AllocError>
    ensures { OnOk result (text.new.items ≡ text.old.items ++ packet_text packet.now) }
{
    push_number(text, u64::from(packet.from))?;
    text.extend_from_slice(b">")?;
    push_number(text, u64::from(packet.to))?;
    text.extend_from_slice(b" ")?;
    push_body(text, &packet.body)
}

/// Appends the name of the kind of packet, and its fields.
fn push_body(text: &mut Vec<u8>, body: &Body<Carried>) -> Result<(), AllocError>
    ensures { OnOk result (text.new.items ≡ text.old.items ++ body_text body.now) }
{
    match body {
        Body::Prepare { ballot, first } => {
            text.extend_from_slice(b"prepare ")?;
            push_ballot(text, *ballot)?;
            push_spaced_slot(text, *first)
        }
        Body::Promise {
            ballot,
            page,
            count,
            reports,
        } => push_promise(text, *ballot, *page, *count, reports.as_slice()),
        Body::Accept {
            ballot,
            slot,
            value,
        } => push_proposal(text, b"accept ", *ballot, *slot, value),
        Body::Accepted {
            ballot,
            slot,
            value,
        } => push_proposal(text, b"accepted ", *ballot, *slot, value),
        Body::Nack { ballot, promise } => {
            text.extend_from_slice(b"nack ")?;
            push_ballot(text, *ballot)?;
            text.extend_from_slice(b" ")?;
            push_ballot(text, *promise)
        }
        Body::Ask { slot } => {
            text.extend_from_slice(b"ask")?;
            push_spaced_slot(text, *slot)
        }
        Body::Told { slot, value } => {
            text.extend_from_slice(b"told")?;
            push_spaced_slot(text, *slot)?;
            push_spaced_value(text, value)
        }
    }
}

/// Appends a promise, or one page of a promise that is split into pages.
fn push_promise(
    text: &mut Vec<u8>,
    ballot: Ballot,
    page: u32,
    count: u32,
    reports: &[SlotReport<Carried>],
) -> Result<(), AllocError>
    ensures { OnOk result (text.new.items ≡ text.old.items
        ++ (codes "promise " ++ ballot_text ballot ++ page_text page count
        ++ flat_map report_text reports.now)) }
{
    text.extend_from_slice(b"promise ")?;
    push_ballot(text, ballot)?;
    push_page(text, page, count)?;
    push_reports(text, reports)
}

/// Appends the number of the page and the count of pages, unless there is one page.
fn push_page(text: &mut Vec<u8>, page: u32, count: u32) -> Result<(), AllocError>
    ensures { OnOk result (text.new.items ≡ text.old.items ++ page_text page count) }
{
    if count == 1 {
        return Ok(());
    }
    text.extend_from_slice(b" page ")?;
    push_number(text, u64::from(page))?;
    text.extend_from_slice(b" of ")?;
    push_number(text, u64::from(count))
}

/// Appends the reports of a promise.
fn push_reports(text: &mut Vec<u8>, reports: &[SlotReport<Carried>]) -> Result<(), AllocError>
    ensures { OnOk result (text.new.items ≡ text.old.items ++ flat_map report_text reports.now) }
{
    for report in reports {
        push_report(text, report)?;
    }
    Ok(())
}

/// Appends a space and `SLOT@R.N`: the slot and the ballot of the report. Its value is not printed.
fn push_report(text: &mut Vec<u8>, report: &SlotReport<Carried>) -> Result<(), AllocError>
    ensures { OnOk result (text.new.items ≡ text.old.items ++ report_text report.now) }
{
    push_spaced_slot(text, report.slot)?;
    text.extend_from_slice(b"@")?;
    push_ballot(text, report.ballot)
}

/// Appends `accept` or `accepted`, a ballot, a slot and a value.
fn push_proposal(
    text: &mut Vec<u8>,
    word: &[u8],
    ballot: Ballot,
    slot: u32,
    value: &Option<Carried>,
) -> Result<(), AllocError>
    ensures { OnOk result (text.new.items
        ≡ text.old.items ++ (word.now ++ proposal_text ballot slot value.now)) }
{
    text.extend_from_slice(word)?;
    push_ballot(text, ballot)?;
    push_spaced_slot(text, slot)?;
    push_spaced_value(text, value)
}

/// Appends a space and the value.
pub(crate) fn push_spaced_value(
    text: &mut Vec<u8>,
    value: &Option<Carried>,
) -> Result<(), AllocError>
    ensures { OnOk result (text.new.items
        ≡ text.old.items ++ (codes " " ++ entry_text (entry_of value.now))) }
{
    match value {
        Some(Carried(entry)) => push_spaced_entry(text, Some(entry)),
        None => push_spaced_entry(text, None),
    }
}

/// Appends a space and `AUTHOR/SERIAL`, or `idle` for a no-operation.
pub fn push_spaced_entry(text: &mut Vec<u8>, entry: Option<&Entry>) -> Result<(), AllocError>
    ensures { OnOk result (text.new.items
        ≡ text.old.items ++ (codes " " ++ entry_text (option_map (λ e. e.now) entry.entry))) }
{
    match entry {
        Some(entry) => {
            text.extend_from_slice(b" ")?;
            push_number(text, entry.author())?;
            text.extend_from_slice(b"/")?;
            push_number(text, entry.serial())
        }
        None => text.extend_from_slice(b" idle"),
    }
}

/// Appends `R.N`: the round and the node of the ballot.
pub(crate) fn push_ballot(text: &mut Vec<u8>, ballot: Ballot) -> Result<(), AllocError>
    ensures { OnOk result (text.new.items ≡ text.old.items ++ ballot_text ballot) }
{
    push_number(text, ballot.round)?;
    text.extend_from_slice(b".")?;
    push_number(text, u64::from(ballot.node))
}

/// Appends a space and the slot.
fn push_spaced_slot(text: &mut Vec<u8>, slot: u32) -> Result<(), AllocError>
    ensures { OnOk result (text.new.items ≡ text.old.items ++ (codes " " ++ decimal slot)) }
{
    text.extend_from_slice(b" ")?;
    push_number(text, u64::from(slot))
}
