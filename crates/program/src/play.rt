//! The command `play`: a script drives nodes, event by event.
ghost use Rattle.std.specs.Prelude.{◌≡◌, ◌++◌, OnOk};
ghost use Rattle.event_lines.specs.EventLines.{counted_event_lines};
ghost use Rattle.program.specs.Played.{IsPlayed, event_of};
ghost use Rattle.world.specs.Carried.{value_event};
ghost use Rattle.world.specs.WorldView.{after_event};

use crate::node_answers::{ahead_line, compare_libraries, label_answer};
use crate::scripts::{AnswerLines, answer_lines, read_script};
use crate::why::{decision_of, push_why};
use commands::{CommonLine, LabelQuestionKind, NodeEntryId, NodeQuestion, PlayLine, PlayOptions};
use event_lines::push_events;
use library::Entry;
use net::Event;
use printed::{
    push_export, push_library_list, push_log, push_ok, push_packet, push_state, push_verdict_line,
};
use questions::Fault;
use std::alloc::{AllocError, Global};
use std::io::{Read, Write};
use std::vec::IntoIter;
use world::World;

/// Reads a script, prints the answers to its lines, and returns the exit status.
pub fn play<I: Read, O: Write>(
    alloc: Global,
    options: PlayOptions,
    input: &mut I,
    output: &mut O,
) -> Result<u8, Fault> {
    let mut lines = read_script(alloc, input)?.into_iter();
    let mut world = World::new(
        alloc,
        options.weights,
        options.event_limit,
        options.work_limit,
    )?;
    answer_lines::<PlayLine, World, IntoIter<PlayLine>, O>(alloc, &mut world, &mut lines, output)
}

impl AnswerLines<PlayLine> for World {
    fn answer(&mut self, line: PlayLine, text: &mut Vec<u8>) -> Result<(), Fault> {
        match line {
            PlayLine::Common(line) => answer_common_line(self, line, text),
            PlayLine::Deliver { packet } => push_step(self, Event::Deliver(packet), text),
            PlayLine::Apply { node } => Ok(push_verdict_line(
                text,
                self.apply_next(node)?,
                b"none",
            )?),
            PlayLine::Show { packet } => {
                push_packet(text, self.packet(packet)?)?;
                Ok(text.extend_from_slice(b"\n")?)
            }
        }
    }
}

/// Carries out a line that `serve` has too, and appends its answer.
fn answer_common_line(world: &mut World, line: CommonLine, text: &mut Vec<u8>) -> Result<(), Fault>
    ensures { OnOk result (IsPlayed (event_of line) world.old world.new) }
{
    match line {
        CommonLine::Offer(offered) => {
            push_step(world, Event::Offer(offered.node, offered.entry), text)
        }
        CommonLine::Begin { node } => push_step(world, Event::Begin(node), text),
        CommonLine::Restart { node } => push_step(world, Event::Restart(node), text),
        CommonLine::List { node } => Ok(push_library_list(text, world.library(node)?)?),
        CommonLine::Status(entry_id) => {
            let verdict = world
                .library(entry_id.node)?
                .status(entry_id.author, entry_id.serial);
            Ok(push_verdict_line(text, verdict, b"unknown")?)
        }
        CommonLine::Export { node } => Ok(push_export(text, world.library(node)?)?),
        CommonLine::Log { node } => Ok(push_log(text, world.log(node)?.as_slice())?),
        CommonLine::Why(entry_id) => push_why_at(world, entry_id, text),
        CommonLine::State { node } => {
            let (state, applied) = (world.state(node)?, world.applied(node)?);
            // No node of `play` is down.
            Ok(push_state(text, &state, applied, false)?)
        }
        CommonLine::Ask(question) => push_label_answer(world, &question, text),
        CommonLine::Compare(pair) => {
            let ahead = compare_libraries(world.library(pair.first)?, world.library(pair.second)?);
            Ok(text.extend_from_slice(ahead_line(ahead))?)
        }
        CommonLine::Events => Ok(push_history(world, text)?),
    }
}

/// Appends the answer to a question about a label of a node's library.
fn push_label_answer(
    world: &World,
    question: &NodeQuestion,
    text: &mut Vec<u8>,
) -> Result<(), Fault> {
    let alloc = *text.allocator();
    let entries = match question.kind {
        LabelQuestionKind::Show => applied_entries(world, question.node)?,
        _ => Vec::new(alloc),
    };
    let library = world.library(question.node)?;
    let answer = label_answer(alloc, library, entries.as_slice(), question)?;
    Ok(text.extend_from_slice(answer.as_slice())?)
}

/// Appends why the node refused an entry.
fn push_why_at(world: &World, entry_id: NodeEntryId, text: &mut Vec<u8>) -> Result<(), Fault> {
    let alloc = *text.allocator();
    let entries = applied_entries(world, entry_id.node)?;
    let decision = decision_of(
        alloc,
        world.library(entry_id.node)?,
        entries.as_slice(),
        entry_id,
    )?;
    Ok(push_why(alloc, text, &decision)?)
}

/// Returns the entries of a node's log that its library applied, in order.
fn applied_entries(world: &World, node: u8) -> Result<Vec<Option<Entry>>, Fault> {
    let mut entries = world.log(node)?;
    entries.truncate(world.applied(node)? as usize);
    Ok(entries)
}

/// Appends the history so far, as lines of `play` after their count.
fn push_history(world: &World, text: &mut Vec<u8>) -> Result<(), AllocError>
    ensures { OnOk result (text.new.items
        ≡ text.old.items ++ counted_event_lines world.now.history.events) }
{
    let alloc = *text.allocator();
    push_events(alloc, text, world.history())
}

/// Plays an event, and appends how many packets were posted so far.
fn push_step(world: &mut World, event: Event<Entry>, text: &mut Vec<u8>) -> Result<(), Fault>
    ensures { OnOk result (world.new ≡ after_event world.old (value_event event)) }
{
    Ok(push_ok(text, world.step(event)?)?)
}
