//! The options of `play` for a picture.
use crate::command_line::{invalid_option, number};
use crate::request::{CommandLineFault, PicturedSteps};
use clap::ArgMatches;
use std::alloc::Global;

/// The greatest number of steps that a picture shows; `run_pictures` draws no more.
const MAX_STEPS: u64 = 200;

/// Returns which steps a picture shows, if one is asked for.
pub(crate) fn pictured_steps(
    alloc: Global,
    options: &ArgMatches,
) -> Result<Option<PicturedSteps>, CommandLineFault> {
    if !options.get_flag("picture") {
        return Ok(None);
    }
    let from = first_step(alloc, options)?;
    let count = step_count(alloc, options)?;
    Ok(Some(PicturedSteps { from, count }))
}

/// Returns the first step, 0 without the option.
fn first_step(alloc: Global, options: &ArgMatches) -> Result<u64, CommandLineFault> {
    if options.get_str("from").is_none() {
        return Ok(0);
    }
    match number(options, "from") {
        Some(from) => Ok(from),
        None => Err(invalid_option(alloc, "play", "--from is a number")),
    }
}

/// Returns how many steps are shown, if the option says so.
fn step_count(alloc: Global, options: &ArgMatches) -> Result<Option<u64>, CommandLineFault> {
    if options.get_str("events").is_none() {
        return Ok(None);
    }
    match number(options, "events") {
        Some(count) if 1 <= count && count <= MAX_STEPS => Ok(Some(count)),
        _ => Err(invalid_option(alloc, "play", "--events is a number from 1 to 200")),
    }
}
