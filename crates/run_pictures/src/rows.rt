//! What a picture shows of a step: lines, points and texts.
ghost use Rattle.std.specs.Prelude.{◌≡◌, ◌≤◌, ◌++◌, flat_map, length, min, slice_get, IfOk, OnOk};
ghost use Rattle.run_pictures.specs.Elements.{span_length};
ghost use Rattle.run_pictures.specs.Picture.{act_class, arrow, arrow_of, break_of, lines_of};
ghost use Rattle.run_pictures.specs.Picture.{points_of, row_length, row_text, stump_line};
ghost use Rattle.run_pictures.specs.Picture.{stump_numbers, verdict_class};
ghost use Rattle.run_pictures.specs.Posts.{max_rows};
ghost use Rattle.run_pictures.specs.RunView.{packets_of};

use crate::elements::{
    push_arrow, push_break, push_circle, push_row_start, push_span, push_stump, push_stump_text,
};
use crate::labels::{learned_label, packet_label, push_short_numbers, step_label};
use crate::step::{Act, Step};
use crate::stumps::{Stump, is_first, numbers_to, row_of_post, titles_to};
use library::Verdict;
use std::alloc::AllocError;
use text::push_html;
use world::World;

/// Appends the lines of the step in a row, whose stumps are given: the break of a restart, the arrow
/// of a delivery, the stumps.
pub(crate) fn push_row_lines(
    lines: &mut Vec<u8>,
    world: &World,
    shown: &[Step],
    row: u8,
    step: Step,
    stumps: &[Stump],
) -> Result<(), AllocError>
    requires { length shown.now ≤ max_rows }
    ensures { OnOk result (lines.new.items
        ≡ lines.old.items ++ lines_of (packets_of world.now) shown.now stumps.now row step) }
{
    push_break_of(lines, step.node, row, step.act)?;
    push_arrow_of(lines, world, shown, row, step.act)?;
    push_stump_lines(lines, world, step.node, row, stumps)
}

/// Appends the break of a node's line, if the act is a restart.
fn push_break_of(lines: &mut Vec<u8>, node: u8, row: u8, act: Act) -> Result<(), AllocError>
    ensures { OnOk result (lines.new.items ≡ lines.old.items ++ break_of node row act) }
{
    match act {
        Act::Restart => push_break(lines, node, row),
        _ => Ok(()),
    }
}

/// Appends the arrow of the packet that is delivered, if the act is a delivery.
fn push_arrow_of(
    lines: &mut Vec<u8>,
    world: &World,
    shown: &[Step],
    row: u8,
    act: Act,
) -> Result<(), AllocError>
    requires { length shown.now ≤ max_rows }
    ensures { OnOk result (lines.new.items
        ≡ lines.old.items ++ arrow_of (packets_of world.now) shown.now row act) }
{
    match act {
        Act::Deliver { packet } => push_packet_arrow(lines, world, shown, row, packet),
        _ => Ok(()),
    }
}

/// Appends the arrow of a packet that is delivered in a row.
fn push_packet_arrow(
    lines: &mut Vec<u8>,
    world: &World,
    shown: &[Step],
    row: u8,
    number: u64,
) -> Result<(), AllocError>
    requires { length shown.now ≤ max_rows }
    ensures { OnOk result (lines.new.items ≡ lines.old.items
        ++ arrow shown.now row number (slice_get (packets_of world.now) number)) }
{
    match world.packet(number) {
        Ok(packet) => {
            let start = row_of_post(shown, number);
            push_arrow(lines, packet.from, start, packet.to, row)
        }
        Err(_) => Ok(()),
    }
}

/// Appends the stumps of a node in a row, one for each node that some go to.
fn push_stump_lines(
    lines: &mut Vec<u8>,
    world: &World,
    node: u8,
    row: u8,
    stumps: &[Stump],
) -> Result<(), AllocError>
    ensures { OnOk result (lines.new.items ≡ lines.old.items
        ++ flat_map (stump_line (packets_of world.now) node row stumps.now) stumps.now) }
{
    for stump in stumps {
        push_stump_line(lines, world, node, row, stumps, *stump)?;
    }
    Ok(())
}

/// Appends a stump for all that go where this one goes, if it is the first of these.
fn push_stump_line(
    lines: &mut Vec<u8>,
    world: &World,
    node: u8,
    row: u8,
    stumps: &[Stump],
    stump: Stump,
) -> Result<(), AllocError>
    ensures { OnOk result (lines.new.items
        ≡ lines.old.items ++ stump_line (packets_of world.now) node row stumps.now stump) }
{
    if !is_first(stumps, stump) {
        return Ok(());
    }
    let titles = titles_to(*lines.allocator(), world, stumps, stump.to)?;
    push_stump(lines, node, row, stump.to, titles.as_slice())
}

/// Appends the point of the step in a row, whose stumps are given, and their numbers.
pub(crate) fn push_row_points(
    points: &mut Vec<u8>,
    row: u8,
    step: Step,
    stumps: &[Stump],
) -> Result<(), AllocError>
    ensures { OnOk result (points.new.items ≡ points.old.items ++ points_of stumps.now row step) }
{
    push_circle(points, act_class(step.act), step.node, row)?;
    push_numbers(points, step.node, row, stumps)
}

/// Returns the attribute `class` of the point of an act: `y` (green) if an entry is applied and
/// added, `x` (red) if it is refused, else none.
fn act_class(act: Act) -> &'static [u8]
    ensures { result.now ≡ act_class act }
{
    match act {
        Act::Apply { verdict, .. } => verdict_class(verdict),
        _ => b"",
    }
}

/// Returns the attribute `class` of the point of an application with a verdict.
fn verdict_class(verdict: Verdict) -> &'static [u8]
    ensures { result.now ≡ verdict_class verdict }
{
    match verdict {
        Verdict::Added => b" class=\"y\"",
        Verdict::Refused(_) => b" class=\"x\"",
        _ => b"",
    }
}

/// Appends the numbers of the stumps of a node in a row.
fn push_numbers(points: &mut Vec<u8>, node: u8, row: u8, stumps: &[Stump]) -> Result<(), AllocError>
    ensures { OnOk result (points.new.items
        ≡ points.old.items ++ flat_map (stump_numbers node row stumps.now) stumps.now) }
{
    for stump in stumps {
        push_stump_numbers(points, node, row, stumps, *stump)?;
    }
    Ok(())
}

/// Appends the numbers of the stumps that go where this one goes, if it is the first of these.
fn push_stump_numbers(
    points: &mut Vec<u8>,
    node: u8,
    row: u8,
    stumps: &[Stump],
    stump: Stump,
) -> Result<(), AllocError>
    ensures { OnOk result (points.new.items
        ≡ points.old.items ++ stump_numbers node row stumps.now stump) }
{
    if !is_first(stumps, stump) {
        return Ok(());
    }
    let alloc = *points.allocator();
    let numbers = numbers_to(alloc, stumps, stump.to)?;
    let mut words = Vec::new(alloc);
    push_short_numbers(&mut words, numbers.as_slice())?;
    push_stump_text(points, node, row, stump.to, words.as_slice())
}

/// Appends the text of the step in a row, and returns how many characters it shows. `from` is the
/// index in the run of the first shown step.
pub(crate) fn push_row_text(
    texts: &mut Vec<u8>,
    world: &World,
    from: usize,
    row: u8,
    step: Step,
) -> Result<u32, AllocError>
    ensures text { OnOk result (texts.new.items ≡ texts.old.items ++ row_text world.now from row step) }
    ensures length { IfOk result (λ count. count ≡ row_length world.now step) }
{
    let alloc = *texts.allocator();
    let label = step_label(alloc, world, step.act)?;
    let packet = packet_label(alloc, world, step.act)?;
    let learned = learned_label(alloc, step)?;
    let number = from.saturating_add(usize::from(row)) as u64;
    push_row_start(texts, number, step.node, row)?;
    push_html(texts, label.as_slice())?;
    push_span(texts, b" <tspan class=\"p\">", packet.as_slice())?;
    push_span(texts, b" <tspan class=\"k\">", learned.as_slice())?;
    texts.extend_from_slice(b"</text>\n")?;
    Ok(
        character_count(label.as_slice())
            .saturating_add(span_length(packet.as_slice()))
            .saturating_add(span_length(learned.as_slice())),
    )
}

/// Returns how many characters some words have, or `u32::MAX` if they have more.
fn character_count(words: &[u8]) -> u32
    ensures { result ≡ min (length words.now) 4294967295 }
{
    u32::try_from(words.len()).unwrap_or(u32::MAX)
}

/// Returns how many characters words in the text of a row show, with a space before them, or
/// `u32::MAX` if they show more.
fn span_length(words: &[u8]) -> u32
    ensures { result ≡ min (span_length words.now) 4294967295 }
{
    if words.is_empty() {
        return 0;
    }
    character_count(words).saturating_add(1)
}
