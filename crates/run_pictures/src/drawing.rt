//! Draws some steps of a run as a picture.
ghost use Rattle.std.specs.Prelude.{◌≡◌, ◌<◌, ◌≤◌, ◌+◌, ◌++◌, Err, codes, length, max, filter, IfOk, OnOk, IsOkUnless};
ghost use Rattle.run_pictures.specs.Elements.{row_y};
ghost use Rattle.run_pictures.specs.Picture.{each_row, longest_of, node_elements, picture_of};
ghost use Rattle.run_pictures.specs.Picture.{picture_start, row_length, row_lines, row_points, row_text};
ghost use Rattle.run_pictures.specs.Posts.{max_rows, shown_of};
ghost use Rattle.run_pictures.specs.RunView.{packets_of};
ghost use Rattle.run_pictures.specs.Steps.{is_event, steps_of};
ghost use Rattle.run_pictures.specs.declared.drawing.PictureFault.TheVariants.{Memory};
ghost use Rattle.run_pictures.specs.declared.drawing.PictureFault.TheVariants.{TooManySteps};

use crate::elements::{push_node, push_two_numbered};
use crate::grid::{picture_width, row_y};
use crate::rows::{push_row_lines, push_row_points, push_row_text};
use crate::run::Run;
use crate::step::Step;
use crate::step_range::StepRange;
use crate::stumps::stumps_of_step;
use crate::style::style;
use std::alloc::{AllocError, Global};
use synod::Weights;
use world::World;

/// The greatest number of steps that a picture shows.
const MAX_ROWS: usize = 200;

/// Why a run has no picture.
#[derive(Clone, Copy, Debug, PartialEq, Eq)]
pub enum PictureFault {
    /// More than 200 steps are to be shown.
    TooManySteps,
    /// An allocation failed.
    Memory,
}

impl From<AllocError> for PictureFault {
    ghost from_gives = { λ _ fault. fault ≡ Memory };

    fn from(_error: AllocError) -> PictureFault {
        PictureFault::Memory
    }
}

/// The layers of a picture, one drawn above the other, and how many characters its longest text
/// shows.
#[derive(Drop)]
struct Layers {
    /// Arrows, stumps and breaks.
    lines: Vec<u8>,
    /// Points, and the numbers of stumps.
    points: Vec<u8>,
    texts: Vec<u8>,
    longest: u32,
}

/// Returns a picture, in SVG, of a range of the steps of a run, with the lines of as many nodes as
/// there are weights. The recorded steps of events are exactly those of the events in the history,
/// in order (`events`).
///
/// Errors: `TooManySteps` if more than 200 steps are to be shown, else `Memory` if an allocation
/// fails. Cost: the size of the picture, and a scan of the shown steps for each packet that one of
/// them posts or delivers.
pub fn draw(
    alloc: Global,
    weights: Weights,
    run: &Run,
    range: StepRange,
) -> Result<Vec<u8>, PictureFault>
    ensures picture { IfOk result (λ svg. svg.items ≡ picture_of (length weights) run.now.world
        range.from (shown_of run.now.steps range.from range.count)) }
    ensures events { filter is_event run.now.steps ≡ steps_of run.now.world.history }
    ensures too_many_steps { max_rows < length (shown_of run.now.steps range.from range.count)
        → result ≡ Err TooManySteps }
    ensures only_memory { length (shown_of run.now.steps range.from range.count) ≤ max_rows
        → IsOkUnless result Memory }
{
    let shown = run.shown(range);
    if shown.len() > MAX_ROWS {
        return Err(PictureFault::TooManySteps);
    }
    Ok(picture(alloc, weights.count(), run.world(), range.from, shown)?)
}

/// Returns the picture of some steps; `from` is the index in the run of the first one.
fn picture(
    alloc: Global,
    nodes: u8,
    world: &World,
    from: usize,
    shown: &[Step],
) -> Result<Vec<u8>, AllocError>
    requires { length shown.now ≤ max_rows }
    ensures { IfOk result (λ svg. svg.items ≡ picture_of nodes world.now from shown.now) }
{
    let mut layers = Layers {
        lines: Vec::new(alloc),
        points: Vec::new(alloc),
        texts: Vec::new(alloc),
        longest: 0,
    };
    push_rows(&mut layers, world, shown, from, 0, shown)?;
    let bottom = row_y(shown.len() as u8);
    let mut svg = Vec::new(alloc);
    push_start(&mut svg, picture_width(nodes, layers.longest), bottom)?;
    push_nodes(&mut svg, bottom, nodes)?;
    push_layers(&mut svg, &layers)?;
    Ok(svg)
}

/// Appends the steps of `rest`, the shown ones from `row` on.
fn push_rows(
    layers: &mut Layers,
    world: &World,
    shown: &[Step],
    from: usize,
    row: u8,
    rest: &[Step],
) -> Result<(), AllocError>
    requires few { length shown.now ≤ max_rows }
    requires within { row + length rest.now ≤ max_rows }
    ensures lines { OnOk result (layers.new.lines.items ≡ layers.old.lines.items
        ++ each_row (row_lines (packets_of world.now) shown.now) row rest.now) }
    ensures points { OnOk result (layers.new.points.items ≡ layers.old.points.items
        ++ each_row (row_points (packets_of world.now) shown.now) row rest.now) }
    ensures texts { OnOk result (layers.new.texts.items ≡ layers.old.texts.items
        ++ each_row (row_text world.now from) row rest.now) }
    ensures longest { OnOk result
        (layers.new.longest ≡ max layers.old.longest (longest_of world.now rest.now)) }
{
    match rest {
        [first, others @ ..] => {
            push_row(layers, world, shown, from, row, *first)?;
            push_rows(layers, world, shown, from, row + 1, others)
        }
        [] => Ok(()),
    }
}

/// Appends the step in a row.
fn push_row(
    layers: &mut Layers,
    world: &World,
    shown: &[Step],
    from: usize,
    row: u8,
    step: Step,
) -> Result<(), AllocError>
    requires { length shown.now ≤ max_rows }
    ensures lines { OnOk result (layers.new.lines.items
        ≡ layers.old.lines.items ++ row_lines (packets_of world.now) shown.now row step) }
    ensures points { OnOk result (layers.new.points.items
        ≡ layers.old.points.items ++ row_points (packets_of world.now) shown.now row step) }
    ensures texts { OnOk result
        (layers.new.texts.items ≡ layers.old.texts.items ++ row_text world.now from row step) }
    ensures longest { OnOk result
        (layers.new.longest ≡ max layers.old.longest (row_length world.now step)) }
{
    let stumps = stumps_of_step(*layers.lines.allocator(), world, shown, step)?;
    push_row_lines(
        &mut layers.lines,
        world,
        shown,
        row,
        step,
        stumps.as_slice(),
    )?;
    push_row_points(&mut layers.points, row, step, stumps.as_slice())?;
    let characters = push_row_text(&mut layers.texts, world, from, row, step)?;
    layers.longest = layers.longest.max(characters);
    Ok(())
}

/// Appends the start of a picture of a width and a height, with its style.
fn push_start(svg: &mut Vec<u8>, width: u64, height: u64) -> Result<(), AllocError>
    ensures { OnOk result (svg.new.items ≡ svg.old.items ++ picture_start width height) }
{
    push_two_numbered(
        svg,
        b"<svg xmlns=\"http://www.w3.org/2000/svg\" width=\"",
        width,
        b"\" height=\"",
        height,
    )?;
    svg.extend_from_slice(style())
}

/// Appends the lines of nodes, down to `bottom`.
fn push_nodes(svg: &mut Vec<u8>, bottom: u64, nodes: u8) -> Result<(), AllocError>
    ensures { OnOk result (svg.new.items ≡ svg.old.items ++ node_elements bottom nodes) }
{
    for node in 0..nodes {
        push_node(svg, bottom, node)?;
    }
    Ok(())
}

/// Appends the layers of a picture, and its end.
fn push_layers(svg: &mut Vec<u8>, layers: &Layers) -> Result<(), AllocError>
    ensures { OnOk result (svg.new.items ≡ svg.old.items ++ (layers.now.lines.items
        ++ layers.now.points.items ++ layers.now.texts.items ++ codes "</svg>\n")) }
{
    svg.extend_from_slice(layers.lines.as_slice())?;
    svg.extend_from_slice(layers.points.as_slice())?;
    svg.extend_from_slice(layers.texts.as_slice())?;
    svg.extend_from_slice(b"</svg>\n")
}
