//! The words of a picture, before markup in them is escaped.
ghost use Rattle.std.specs.Prelude.{◌≡◌, ◌≤◌, ◌<◌, ◌+◌, ◌++◌, length, map, take, slice_get, codes, decimal};
ghost use Rattle.std.specs.Prelude.{if◌then◌else◌, IfOk, OnOk};
ghost use Rattle.run_pictures.specs.Labels.{act_label, end_of_numbers, entry_label, learned_label};
ghost use Rattle.run_pictures.specs.Labels.{offer_label, packet_label, printable, short_numbers};
ghost use Rattle.run_pictures.specs.Labels.{slots_label, start_of, start_up_to};
ghost use Rattle.run_pictures.specs.Posts.{packet_form};
ghost use Rattle.run_pictures.specs.RunView.{packets_of};

use crate::step::{Act, Step};
use crate::stumps::push_packet_form;
use library::Entry;
use net::Event;
use printed::push_verdict;
use std::alloc::{AllocError, Global};
use text::push_number;
use world::{Carried, World};

/// The greatest number of bytes that a label shows of a packet's printed form or of an offered
/// text.
const MAX_SHOWN: usize = 48;

/// The byte that replaces one that is not printable ASCII.
const REPLACEMENT: u8 = b'?';

/// How many characters fit below a stump without covering those of the next stump.
const MAX_CHARACTERS: usize = 8;

/// Returns the label of a step: its kind, followed by the author, the serial number and the start
/// of the text for an offer, the number of the packet for a delivery, the slot and the verdict for
/// an application. The offer of a charter is labelled `charter`, with its author and serial number.
pub(crate) fn step_label(alloc: Global, world: &World, act: Act) -> Result<Vec<u8>, AllocError>
    ensures { IfOk result (λ label. label.items ≡ act_label world.now.history.events act) }
{
    let mut label = Vec::new(alloc);
    push_act(&mut label, world, act)?;
    Ok(label)
}

/// Appends the label of a step with an act.
fn push_act(label: &mut Vec<u8>, world: &World, act: Act) -> Result<(), AllocError>
    ensures { OnOk result (label.new.items ≡ label.old.items ++ act_label world.now.history.events act) }
{
    match act {
        Act::Offer { event_index } => push_offer(label, world, event_index),
        Act::Begin => label.extend_from_slice(b"begin"),
        Act::Deliver { packet } => push_numbered(label, b"deliver ", packet),
        Act::Restart => label.extend_from_slice(b"restart"),
        Act::Apply { slot, verdict } => {
            push_numbered(label, b"apply slot ", u64::from(slot))?;
            label.extend_from_slice(b": ")?;
            push_verdict(label, verdict)
        }
    }
}

/// Appends the label of the offer that is the event at an index of the history.
fn push_offer(label: &mut Vec<u8>, world: &World, index: u64) -> Result<(), AllocError>
    ensures { OnOk result (label.new.items
        ≡ label.old.items ++ offer_label (slice_get world.now.history.events index)) }
{
    match world.history().get(index as usize) {
        Some(Event::Offer(_, Carried(entry))) => push_entry(label, entry),
        _ => label.extend_from_slice(b"offer"),
    }
}

/// Appends the label of the offer of an entry: with the start of its text, unless it is a charter.
fn push_entry(label: &mut Vec<u8>, entry: &Entry) -> Result<(), AllocError>
    ensures { OnOk result (label.new.items ≡ label.old.items ++ entry_label entry.now) }
{
    match entry {
        Entry::Text(submission) => {
            push_numbered(label, b"offer ", submission.author)?;
            push_numbered(label, b"/", submission.serial)?;
            label.extend_from_slice(b" ")?;
            push_start(label, submission.text.as_slice())
        }
        Entry::Charter { author, serial, .. } => {
            push_numbered(label, b"charter ", *author)?;
            push_numbered(label, b"/", *serial)
        }
    }
}

/// Appends a text and then a number.
fn push_numbered(label: &mut Vec<u8>, before: &[u8], number: u64) -> Result<(), AllocError>
    ensures { OnOk result (label.new.items ≡ label.old.items ++ (before.now ++ decimal number)) }
{
    label.extend_from_slice(before)?;
    push_number(label, number)
}

/// Appends at most `MAX_SHOWN` bytes, with `?` for each that is not printable ASCII, and ` ..` if
/// there are more.
fn push_start(label: &mut Vec<u8>, bytes: &[u8]) -> Result<(), AllocError>
    ensures { OnOk result (label.new.items ≡ label.old.items ++ start_of bytes.now) }
{
    push_start_up_to(label, bytes, MAX_SHOWN)
}

/// Appends at most `count` bytes, as `push_start` does.
#[tactic(auto, unfolding(crate::specs::Labels::start_up_to))]
fn push_start_up_to(label: &mut Vec<u8>, bytes: &[u8], count: usize) -> Result<(), AllocError>
    ensures { OnOk result (label.new.items ≡ label.old.items ++ start_up_to count bytes.now) }
{
    if count < bytes.len() {
        push_printable(label, &bytes[..count])?;
        label.extend_from_slice(b" ..")
    } else {
        push_printable(label, bytes)
    }
}

/// Appends bytes, with `?` for each that is not printable ASCII.
fn push_printable(label: &mut Vec<u8>, bytes: &[u8]) -> Result<(), AllocError>
    ensures { OnOk result (label.new.items ≡ label.old.items ++ map printable bytes.now) }
{
    for byte in bytes {
        label.push(printable(*byte))?;
    }
    Ok(())
}

/// Returns the byte if it is printable ASCII, else `REPLACEMENT`.
fn printable(byte: u8) -> u8
    ensures { result ≡ printable byte }
{
    if b' ' <= byte && byte <= b'~' {
        byte
    } else {
        REPLACEMENT
    }
}

/// Returns the start of the printed form of the packet that an act delivers; nothing if it delivers
/// none.
pub(crate) fn packet_label(alloc: Global, world: &World, act: Act) -> Result<Vec<u8>, AllocError>
    ensures { IfOk result (λ label. label.items ≡ packet_label (packets_of world.now) act) }
{
    match act {
        Act::Deliver { packet } => delivered_label(alloc, world, packet),
        _ => Ok(Vec::new(alloc)),
    }
}

/// Returns the start of the printed form of a packet.
fn delivered_label(alloc: Global, world: &World, number: u64) -> Result<Vec<u8>, AllocError>
    ensures { IfOk result (λ label. label.items
        ≡ start_of (packet_form (slice_get (packets_of world.now) number))) }
{
    let mut form = Vec::new(alloc);
    push_packet_form(&mut form, world, number)?;
    let mut label = Vec::new(alloc);
    push_start(&mut label, form.as_slice())?;
    Ok(label)
}

/// Returns the note of the slots by which the log of its node grew in a step; nothing if there are
/// none.
pub(crate) fn learned_label(alloc: Global, step: Step) -> Result<Vec<u8>, AllocError>
    ensures { IfOk result (λ label. label.items ≡ learned_label step) }
{
    let mut label = Vec::new(alloc);
    if step.log_len_before < step.log_len_after {
        push_slots(&mut label, step.log_len_before, step.log_len_after - 1)?;
    }
    Ok(label)
}

/// Appends the slots from `first` to `last`.
fn push_slots(label: &mut Vec<u8>, first: u32, last: u32) -> Result<(), AllocError>
    ensures { OnOk result (label.new.items ≡ label.old.items ++ slots_label first last) }
{
    push_numbered(label, b"learned ", u64::from(first))?;
    if first < last {
        push_numbered(label, b" to ", u64::from(last))
    } else {
        Ok(())
    }
}

/// Appends numbers that are joined by commas. If they do not fit below a stump, only the first ones
/// are shown, followed by `..`: as many as fit before it, but at least one, though not the last.
pub(crate) fn push_short_numbers(text: &mut Vec<u8>, numbers: &[u8]) -> Result<(), AllocError>
    ensures { OnOk result (text.new.items ≡ text.old.items ++ short_numbers numbers.now) }
{
    if numbers.len() <= MAX_CHARACTERS {
        text.extend_from_slice(numbers)
    } else {
        text.extend_from_slice(first_numbers(numbers))?;
        text.extend_from_slice(b"..")
    }
}

/// Returns the first of some numbers that are joined by commas, as many as fit before `..`.
fn first_numbers(numbers: &[u8]) -> &[u8]
    ensures { result.now ≡ take (end_of_numbers 0 0 numbers.now) numbers.now }
{
    let mut len = 0usize;
    for (read, byte) in numbers.iter().enumerate() {
        if *byte == b',' && (len == 0 || read + b"..".len() <= MAX_CHARACTERS) {
            len = read;
        }
    }
    &numbers[..len]
}
