//! The packets of a step that no shown step delivers, and the rows of posts.
ghost use Rattle.std.specs.Prelude.{◌≡◌, ◌≤◌, ◌++◌, length, slice_get, flat_map, drop, IfOk, OnOk};
ghost use Rattle.std.specs.List.{list_any};
ghost use Rattle.run_pictures.specs.Posts.{delivers, delivers_act, is_before, is_first, max_rows};
ghost use Rattle.run_pictures.specs.Posts.{number_to, numbers_to, packet_form, posts, row_of_post};
ghost use Rattle.run_pictures.specs.Posts.{stump, stump_at, stumps_of, title_to, titles_to};
ghost use Rattle.run_pictures.specs.RunView.{packets_of};

use crate::step::{Act, Step};
use printed::push_packet;
use std::alloc::{AllocError, Global};
use text::push_number;
use world::World;

/// A packet that a shown step posted to node `to`, and that no shown step delivers.
#[derive(Clone, Copy)]
pub(crate) struct Stump {
    pub(crate) packet: u64,
    pub(crate) to: u8,
}

/// Returns the row of the step that posted a packet, if that step is shown.
pub(crate) fn row_of_post(shown: &[Step], number: u64) -> Option<u8>
    requires { length shown.now ≤ max_rows }
    ensures { result ≡ row_of_post number shown.now }
{
    for (row, step) in shown.iter().enumerate() {
        if has_posted(step, number) {
            return Some(row as u8);
        }
    }
    None
}

/// Returns whether the step posted a packet.
fn has_posted(step: &Step, number: u64) -> bool
    ensures { result ≡ posts number step.now }
{
    step.first_post <= number && number < step.end_post
}

/// Returns a stump for each packet that the step posted and no shown step delivers.
pub(crate) fn stumps_of_step(
    alloc: Global,
    world: &World,
    shown: &[Step],
    step: Step,
) -> Result<Vec<Stump>, AllocError>
    ensures { IfOk result
        (λ stumps. stumps.items ≡ stumps_of (packets_of world.now) shown.now step) }
{
    let mut stumps = Vec::new(alloc);
    for number in step.first_post..step.end_post {
        push_stump(&mut stumps, world, shown, number)?;
    }
    Ok(stumps)
}

/// Appends a stump for a packet, if no shown step delivers it.
fn push_stump(
    stumps: &mut Vec<Stump>,
    world: &World,
    shown: &[Step],
    number: u64,
) -> Result<(), AllocError>
    ensures { OnOk result (stumps.new.items
        ≡ stumps.old.items ++ stump (packets_of world.now) shown.now number) }
{
    if is_delivered(shown, number) {
        Ok(())
    } else {
        push_stump_of(stumps, world, number)
    }
}

/// Appends a stump for a packet, if there is such a packet.
fn push_stump_of(stumps: &mut Vec<Stump>, world: &World, number: u64) -> Result<(), AllocError>
    ensures { OnOk result (stumps.new.items
        ≡ stumps.old.items ++ stump_at number (slice_get (packets_of world.now) number)) }
{
    match world.packet(number) {
        Ok(packet) => {
            stumps.push(Stump {
                packet: number,
                to: packet.to,
            })?;
            Ok(())
        }
        Err(_) => Ok(()),
    }
}

/// Returns whether a shown step delivers a packet.
fn is_delivered(shown: &[Step], number: u64) -> bool
    ensures { result ≡ list_any (delivers number) shown.now }
{
    shown.iter().any(|step| is_delivery_of(step.act, number))
}

/// Returns whether an act delivers a packet.
fn is_delivery_of(act: Act, number: u64) -> bool
    ensures { result ≡ delivers_act number act }
{
    match act {
        Act::Deliver { packet } => packet == number,
        _ => false,
    }
}

/// Returns whether a stump is the first of those that go to its node.
pub(crate) fn is_first(stumps: &[Stump], stump: Stump) -> bool
    ensures { result ≡ is_first stumps.now stump }
{
    !has_before(stumps, stump)
}

/// Returns whether one of some stumps goes to the node of a stump, and was posted before.
fn has_before(stumps: &[Stump], stump: Stump) -> bool
    ensures { result ≡ list_any (is_before stump) stumps.now }
{
    stumps.iter().any(|other| is_before(stump, *other))
}

/// Returns whether another stump goes to the same node, and its packet was posted before.
fn is_before(stump: Stump, other: Stump) -> bool
    ensures { result ≡ is_before stump other }
{
    other.to == stump.to && other.packet < stump.packet
}

/// Returns the numbers of the stumps that go to a node, joined by commas.
pub(crate) fn numbers_to(alloc: Global, stumps: &[Stump], to: u8) -> Result<Vec<u8>, AllocError>
    ensures { IfOk result (λ numbers. numbers.items ≡ numbers_to to stumps.now) }
{
    let mut numbers = Vec::new(alloc);
    for stump in stumps {
        push_number_to(&mut numbers, *stump, to)?;
    }
    without_first(alloc, numbers.as_slice())
}

/// Appends a comma and the number of a stump, if it goes to a node.
fn push_number_to(numbers: &mut Vec<u8>, stump: Stump, to: u8) -> Result<(), AllocError>
    ensures { OnOk result (numbers.new.items ≡ numbers.old.items ++ number_to to stump) }
{
    if stump.to != to {
        return Ok(());
    }
    numbers.extend_from_slice(b",")?;
    push_number(numbers, stump.packet)
}

/// Returns the printed forms of the packets of the stumps that go to a node, a line each.
pub(crate) fn titles_to(
    alloc: Global,
    world: &World,
    stumps: &[Stump],
    to: u8,
) -> Result<Vec<u8>, AllocError>
    ensures { IfOk result (λ titles. titles.items ≡ titles_to (packets_of world.now) to stumps.now) }
{
    let mut titles = Vec::new(alloc);
    for stump in stumps {
        push_title_to(&mut titles, world, *stump, to)?;
    }
    without_first(alloc, titles.as_slice())
}

/// Appends a line feed and the printed form of the packet of a stump, if it goes to a node.
fn push_title_to(
    titles: &mut Vec<u8>,
    world: &World,
    stump: Stump,
    to: u8,
) -> Result<(), AllocError>
    ensures { OnOk result (titles.new.items ≡ titles.old.items ++ title_to (packets_of world.now) to stump) }
{
    if stump.to != to {
        return Ok(());
    }
    titles.extend_from_slice(b"\n")?;
    push_packet_form(titles, world, stump.packet)
}

/// Appends the printed form of a packet, or nothing if there is no such packet.
pub(crate) fn push_packet_form(
    text: &mut Vec<u8>,
    world: &World,
    number: u64,
) -> Result<(), AllocError>
    ensures { OnOk result (text.new.items
        ≡ text.old.items ++ packet_form (slice_get (packets_of world.now) number)) }
{
    match world.packet(number) {
        Ok(packet) => push_packet(text, packet),
        Err(_) => Ok(()),
    }
}

/// Returns the bytes after the first.
#[tactic(auto, using(std::proofs::lemmas::List::drop_all))]
fn without_first(alloc: Global, bytes: &[u8]) -> Result<Vec<u8>, AllocError>
    ensures { IfOk result (λ rest. rest.items ≡ drop 1 bytes.now) }
{
    if bytes.is_empty() {
        Ok(Vec::new(alloc))
    } else {
        Vec::from_slice(alloc, &bytes[1..])
    }
}
