//! Offers of entries as lines of `play`.
ghost use Rattle.std.specs.Prelude.{◌≡◌, ◌++◌, ◌^◌, ◌<◌, ◌==◌, [], ◌∷◌, codes, decimal, length};
ghost use Rattle.std.specs.Prelude.{map, OnOk};
ghost use Rattle.std.specs.List.{AllByRecursion, list_any};
ghost use Rattle.commands.specs.declared.script.TheConstants.{LINE_FEED};
ghost use Rattle.event_lines.specs.EventLines.{EntryIsInRange, TextIsInRange, spaced};
ghost use Rattle.event_lines.specs.EventLines.{text_offer_lines, offer_lines};
ghost use Rattle.event_lines.specs.EventLines.{offer_bytes_line, offer_bytes_lines, offer_line};
ghost use Rattle.event_lines.specs.EventLines.{node_author_serial_words};

use commands::LINE_FEED;
use library::{Entry, Submission};
use std::alloc::AllocError;
use text::push_number;

/// Appends the lines that offer an entry at a node.
pub(crate) fn push_offer(text: &mut Vec<u8>, node: u8, entry: &Entry) -> Result<(), AllocError>
    ensures text { OnOk result (text.new.items ≡ text.old.items ++ offer_lines node entry.now) }
    ensures in_range { OnOk result ((node < 256) × EntryIsInRange entry.now) }
{
    match entry {
        Entry::Text(submission) => push_text_offer(text, node, submission),
        Entry::Charter {
            author,
            serial,
            names,
        } => {
            text.extend_from_slice(b"charter")?;
            push_node_author_serial(text, node, *author, *serial)?;
            push_spaced_numbers(text, names.as_slice())?;
            text.extend_from_slice(b"\n")
        }
    }
}

/// Appends the lines that offer a text at a node.
fn push_text_offer(text: &mut Vec<u8>, node: u8, submission: &Submission) -> Result<(), AllocError>
    ensures text { OnOk result (text.new.items ≡ text.old.items ++ text_offer_lines node submission.now) }
    ensures in_range { OnOk result ((node < 256) × TextIsInRange submission.now) }
{
    if has_line_feed(submission.text.as_slice()) {
        push_offer_bytes_lines(text, node, submission)
    } else {
        push_offer_line(text, node, submission)
    }
}

/// Appends the line `offer-bytes` of a text, the bytes of the text, and a line feed.
fn push_offer_bytes_lines(
    text: &mut Vec<u8>,
    node: u8,
    submission: &Submission,
) -> Result<(), AllocError>
    ensures text { OnOk result
        (text.new.items ≡ text.old.items ++ offer_bytes_lines node submission.now) }
    ensures in_range { OnOk result ((node < 256) × TextIsInRange submission.now) }
{
    push_offer_bytes_line(text, node, submission)?;
    text.extend_from_slice(submission.text.as_slice())?;
    text.extend_from_slice(b"\n")
}

/// Appends the line `offer-bytes` of a text, which ends with the count of its bytes.
fn push_offer_bytes_line(
    text: &mut Vec<u8>,
    node: u8,
    submission: &Submission,
) -> Result<(), AllocError>
    ensures text { OnOk result
        (text.new.items ≡ text.old.items ++ offer_bytes_line node submission.now) }
    ensures in_range { OnOk result ((node < 256) × TextIsInRange submission.now) }
{
    push_offer_bytes_start(text, node, submission)?;
    push_spaced_number(text, submission.text.len() as u64)?;
    text.extend_from_slice(b"\n")
}

/// Appends `offer-bytes`, the node, and the author and serial number of a text.
fn push_offer_bytes_start(
    text: &mut Vec<u8>,
    node: u8,
    submission: &Submission,
) -> Result<(), AllocError>
    ensures text { OnOk result (text.new.items ≡ text.old.items
        ++ (codes "offer-bytes" ++ spaced (node_author_serial_words node submission.now.author submission.now.serial))) }
    ensures in_range { OnOk result ((node < 256)
        × (submission.now.author < 2 ^ 64) × (submission.now.serial < 2 ^ 64)) }
{
    text.extend_from_slice(b"offer-bytes")?;
    push_node_author_serial(text, node, submission.author, submission.serial)
}

/// Appends the line `offer` of a text without line feeds.
fn push_offer_line(text: &mut Vec<u8>, node: u8, submission: &Submission) -> Result<(), AllocError>
    ensures text { OnOk result
        (text.new.items ≡ text.old.items ++ offer_line node submission.now) }
    ensures in_range { OnOk result ((node < 256) × TextIsInRange submission.now) }
{
    text.extend_from_slice(b"offer")?;
    push_node_author_serial(text, node, submission.author, submission.serial)?;
    text.extend_from_slice(b" ")?;
    text.extend_from_slice(submission.text.as_slice())?;
    text.extend_from_slice(b"\n")
}

/// Returns whether the bytes contain a line feed.
fn has_line_feed(bytes: &[u8]) -> bool
    ensures { result ≡ list_any (λ b. b == LINE_FEED) bytes.now }
{
    bytes.contains(&LINE_FEED)
}

/// Appends a node, an author and a serial number, each after a space.
fn push_node_author_serial(
    text: &mut Vec<u8>,
    node: u8,
    author: u64,
    serial: u64,
) -> Result<(), AllocError>
    ensures text { OnOk result (text.new.items ≡ text.old.items
        ++ spaced (decimal node ∷ decimal author ∷ decimal serial ∷ [])) }
    ensures node { node < 256 }
    ensures author { author < 2 ^ 64 }
    ensures serial { serial < 2 ^ 64 }
{
    push_spaced_number(text, u64::from(node))?;
    push_spaced_number(text, author)?;
    push_spaced_number(text, serial)
}

/// Appends the numbers, each after a space.
fn push_spaced_numbers(text: &mut Vec<u8>, numbers: &[u64]) -> Result<(), AllocError>
    ensures text { OnOk result (text.new.items ≡ text.old.items ++ spaced (map decimal numbers.now)) }
    ensures in_range { OnOk result (AllByRecursion (λ n. n < 2 ^ 64) numbers.now) }
{
    match numbers {
        [first, rest @ ..] => {
            push_spaced_number(text, *first)?;
            push_spaced_numbers(text, rest)
        }
        [] => Ok(()),
    }
}

/// Appends a space and a number.
fn push_spaced_number(text: &mut Vec<u8>, number: u64) -> Result<(), AllocError>
    ensures text { OnOk result (text.new.items ≡ text.old.items ++ spaced (decimal number ∷ [])) }
    ensures in_range { number < 2 ^ 64 }
{
    text.extend_from_slice(b" ")?;
    push_number(text, number)
}
