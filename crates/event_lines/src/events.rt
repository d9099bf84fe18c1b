//! Events as lines of `play`.
ghost use Rattle.std.specs.Prelude.{◌≡◌, ◌++◌, ◌^◌, ◌<◌, ◌==◌, Ok, count_by, map, IfOk, OnOk};
ghost use Rattle.commands.specs.PlayLines.{play_line_of};
ghost use Rattle.commands.specs.Scripts.{script_of};
ghost use Rattle.commands.specs.declared.script.TheConstants.{LINE_FEED};
ghost use Rattle.event_lines.specs.EventLines.{EventIsInRange, lines_of_events, lines_of_event};
ghost use Rattle.event_lines.specs.EventLines.{counted_event_lines};
ghost use Rattle.event_lines.specs.EventLines.{play_line_of_event, number_line};

use crate::offers::push_offer;
use commands::LINE_FEED;
use net::Event;
use std::alloc::{AllocError, Global};
use text::push_number;
use world::Carried;

/// Returns the lines of `play` for the events, in order.
fn event_lines(alloc: Global, events: &[Event<Carried>]) -> Result<Vec<u8>, AllocError>
    ensures text { IfOk result (λ text. text.items ≡ lines_of_events events.now) }
    ensures parses { IfOk result
        (λ text. script_of play_line_of text.items ≡ Ok (map play_line_of_event events.now)) }
{
    let mut text = Vec::new(alloc);
    for event in events {
        push_event(&mut text, event)?;
    }
    Ok(text)
}

/// Appends a line `events N` and the lines of `play` for the events, in order: those lines alone are
/// a script that is parsed as these events (`parses`). Each event is one line, except that a text
/// with a line feed is offered by a line `offer-bytes` and the bytes after it. N is the number of
/// line feeds after the first line, those in offered texts included.
///
/// Errors: an allocation fails; the text is then unspecified. Cost: the size of the lines.
pub fn push_events(
    alloc: Global,
    text: &mut Vec<u8>,
    events: &[Event<Carried>],
) -> Result<(), AllocError>
    ensures text { OnOk result (text.new.items ≡ text.old.items ++ counted_event_lines events.now) }
    ensures parses { OnOk result
        (script_of play_line_of (lines_of_events events.now) ≡ Ok (map play_line_of_event events.now)) }
{
    let lines = event_lines(alloc, events)?;
    text.extend_from_slice(b"events ")?;
    push_number(text, count_line_feeds(lines.as_slice()) as u64)?;
    text.extend_from_slice(b"\n")?;
    text.extend_from_slice(lines.as_slice())
}

/// Counts the line feeds of a text.
fn count_line_feeds(text: &[u8]) -> usize
    ensures { result ≡ count_by (λ b. b == LINE_FEED) text.now }
{
    text.iter().filter(|byte| **byte == LINE_FEED).count()
}

/// Appends the lines of an event.
///
/// The clause `in_range` states what the types of its fields ensure, for the proof of `parses`.
fn push_event(text: &mut Vec<u8>, event: &Event<Carried>) -> Result<(), AllocError>
    ensures text { OnOk result (text.new.items ≡ text.old.items ++ lines_of_event event.now) }
    ensures in_range { OnOk result (EventIsInRange event.now) }
{
    match event {
        Event::Offer(node, Carried(entry)) => push_offer(text, *node, entry),
        Event::Begin(node) => push_node_line(text, b"begin", *node),
        Event::Deliver(number) => push_number_line(text, b"deliver", *number),
        Event::Restart(node) => push_node_line(text, b"restart", *node),
    }
}

/// Appends a line of a verb and the number of a node.
fn push_node_line(text: &mut Vec<u8>, verb: &[u8], node: u8) -> Result<(), AllocError>
    ensures text { OnOk result (text.new.items ≡ text.old.items ++ number_line verb.now node) }
    ensures in_range { node < 256 }
{
    push_number_line(text, verb, u64::from(node))
}

/// Appends a line of a verb and a number.
fn push_number_line(text: &mut Vec<u8>, verb: &[u8], number: u64) -> Result<(), AllocError>
    ensures text { OnOk result (text.new.items ≡ text.old.items ++ number_line verb.now number) }
    ensures in_range { number < 2 ^ 64 }
{
    text.extend_from_slice(verb)?;
    text.extend_from_slice(b" ")?;
    push_number(text, number)?;
    text.extend_from_slice(b"\n")
}
