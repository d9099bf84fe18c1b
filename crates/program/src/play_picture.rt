//! The command `play --picture`: the picture of the run that a script makes.
use crate::scripts::read_script;
use commands::{CommonLine, PicturedSteps, PlayLine, PlayOptions};
use net::{Event, StepFault};
use questions::{Fault, print};
use run_pictures::{PictureFault, Run, StepRange, draw};
use std::alloc::{AllocError, Global};
use std::io::{Read, Write};
use synod::Weights;

/// Reads a script, takes its steps, prints the picture of some of them, and returns the exit
/// status. A line that is refused leaves no mark, and questions are not answered.
///
/// Errors: `Input`; `BadLine`; `LongRun`; `Memory`, before anything is printed; `Output`.
pub fn print_picture<I: Read, O: Write>(
    alloc: Global,
    options: PlayOptions,
    steps: PicturedSteps,
    input: &mut I,
    output: &mut O,
) -> Result<u8, Fault> {
    let lines = read_script::<PlayLine, I>(alloc, input)?;
    let mut run = Run::new(
        alloc,
        options.weights,
        options.event_limit,
        options.work_limit,
    )?;
    print_run(
        alloc,
        options.weights,
        &mut run,
        lines,
        range_of(steps),
        output,
    )
}

/// Takes the steps of a script, and prints the picture of a range of them.
fn print_run<O: Write>(
    alloc: Global,
    weights: Weights,
    run: &mut Run,
    lines: Vec<PlayLine>,
    range: StepRange,
    output: &mut O,
) -> Result<u8, Fault> {
    let picture = play_and_draw(alloc, weights, run, lines, range)?;
    print(output, picture.as_slice())?;
    Ok(0)
}

/// Returns which range of steps is asked for.
fn range_of(steps: PicturedSteps) -> StepRange {
    StepRange {
        from: saturated_index(steps.from),
        count: saturated_index(steps.count.unwrap_or(u64::MAX)),
    }
}

/// Returns a number as an index, or the greatest index if the number is greater.
fn saturated_index(number: u64) -> usize {
    usize::try_from(number).unwrap_or(usize::MAX)
}

/// Takes the steps of a script, and returns the picture of a range of them.
fn play_and_draw(
    alloc: Global,
    weights: Weights,
    run: &mut Run,
    lines: Vec<PlayLine>,
    range: StepRange,
) -> Result<Vec<u8>, Fault> {
    for line in lines {
        if let Err(StepFault::Memory) = take_step(run, line) {
            return Err(Fault::Memory(AllocError));
        }
    }
    match draw(alloc, weights, run, range) {
        Ok(picture) => Ok(picture),
        Err(PictureFault::TooManySteps) => Err(Fault::LongRun),
        Err(PictureFault::Memory) => Err(Fault::Memory(AllocError)),
    }
}

/// Takes the step of a line, if it has one.
fn take_step(run: &mut Run, line: PlayLine) -> Result<(), StepFault> {
    match line {
        PlayLine::Common(line) => take_common_step(run, line),
        PlayLine::Deliver { packet } => run.step(Event::Deliver(packet)),
        PlayLine::Apply { node } => run.apply_next(node),
        PlayLine::Show { .. } => Ok(()),
    }
}

/// Takes the step of a line that `serve` has too.
fn take_common_step(run: &mut Run, line: CommonLine) -> Result<(), StepFault> {
    match line {
        CommonLine::Offer(offered) => run.step(Event::Offer(offered.node, offered.entry)),
        CommonLine::Begin { node } => run.step(Event::Begin(node)),
        CommonLine::Restart { node } => run.step(Event::Restart(node)),
        _ => Ok(()),
    }
}
