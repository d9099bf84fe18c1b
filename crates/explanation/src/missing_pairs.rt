//! The pairs of variables that a proof needs to be distinct, and that no active `$d` has together.
//!
//! The run over the items goes on where the disjoint variable condition of a citation does not
//! hold, up to the first item with another fault.
ghost use Rattle.std.specs.Prelude.{◌≡◌, ◌<◌, ◌≤◌, length, false, IfSome, IsTrue};
ghost use Rattle.frame.specs.FrameOf.{HasAssertion};
ghost use Rattle.frame.specs.ListsOfPairs.{is_numbered_pair};
ghost use Rattle.mm_read.specs.declared.stmt.Stmt.{Stmt as Statement};
ghost use Rattle.names.specs.Codes.{name_at};
ghost use Rattle.scope.specs.Active.{is_variable};

use crate::expressions::expr_at;
use crate::written_lines::Lines;
use frame::{FrameBuffers, Frames, Meaning, Pairs};
use proof_code::Items;
use std::alloc::{AllocError, Global};
use std::collections::BTreeSet;
use verify::{Meter, Results};

/// Writes the `$d` that a proof lacks, all on one line, if it lacks any.
pub(crate) fn push_missing_pairs(
    alloc: Global,
    lines: &mut Lines<'_>,
    frames: &Frames,
    at: usize,
    items: &Items,
)
    requires { (1 ≤ at) × (at ≤ length frames.now.statements) }
{
    let Some(pairs) = lines.ok_or_fail(missing_pairs(alloc, frames, at, items)) else {
        return;
    };
    if pairs.is_empty() {
        return;
    }
    lines.push(b"  the proof needs");
    for (one, other) in pairs.iter() {
        lines.push(b" $d ");
        lines.push(frames.symbol(*one));
        lines.push(b" ");
        lines.push(frames.symbol(*other));
        lines.push(b" $.");
    }
    lines.push(b"\n");
}

/// Returns the pairs that a proof of the `$p` at a position needs and lacks, by the numbers of their
/// variables, the smaller one first.
///
/// Errors: an allocation fails. Cost: that of verifying the proof, and for each citation the
/// symbols of the images of its variables and the pairs of variables that they have.
fn missing_pairs(
    alloc: Global,
    frames: &Frames,
    at: usize,
    items: &Items,
) -> Result<BTreeSet<(u32, u32)>, AllocError>
    requires { (1 ≤ at) × (at ≤ length frames.now.statements) }
{
    let parts = items.parts();
    let positions = frames.positions(parts.labels)?;
    let mut results = Results::new(alloc);
    let mut missing = BTreeSet::new(alloc);
    for number in parts.numbers {
        let place = (*number as usize).checked_sub(1);
        let is_done = match place {
            None => results.mark()?,
            Some(place) if place < positions.len() => match positions[place] {
                Some(position) => { cite(alloc, frames, at, position, &mut results, &mut missing)? }
                None => false,
            },
            Some(place) => results.recall(place.saturating_sub(positions.len()))?,
        };
        if !is_done {
            break;
        }
    }
    Ok(missing)
}

/// Cites the statement at a position, whatever its disjoint variable condition says, and adds the
/// pairs that it lacks. Returns `false` if it cannot be cited.
fn cite(
    alloc: Global,
    frames: &Frames,
    at: usize,
    position: usize,
    results: &mut Results,
    missing: &mut BTreeSet<(u32, u32)>,
) -> Result<bool, AllocError>
    requires { (1 ≤ at) × (at ≤ length frames.now.statements) }
{
    match frames.meaning(at, position) {
        Meaning::Hypothesis(expr) => results.add(expr),
        Meaning::Assertion => cite_assertion(alloc, frames, at, position, results, missing),
        Meaning::Nothing => Ok(false),
    }
}

/// Cites an assertion, as `cite` does.
fn cite_assertion(
    alloc: Global,
    frames: &Frames,
    at: usize,
    cited_at: usize,
    results: &mut Results,
    missing: &mut BTreeSet<(u32, u32)>,
) -> Result<bool, AllocError>
    requires position { (1 ≤ at) × (at ≤ length frames.now.statements) }
    requires assertion { (s : Statement) × HasAssertion frames.now.statements cited_at s }
{
    let mut mandatory = Vec::new(alloc);
    frames.mandatory(cited_at, &mut mandatory)?;
    let mut frame_buffers = FrameBuffers::new(alloc);
    let cited = frames.cited_view(cited_at, &mut frame_buffers)?;
    let count = cited.hypotheses.len();
    if count > results.len() {
        return Ok(false);
    }
    results.read_untyped(&cited.hypotheses)?;
    if !are_hypotheses_met(frames, &*results, &mandatory) {
        return Ok(false);
    }
    let groups = frames.groups(cited_at)?;
    let groups = groups.as_groups();
    let pairs = frames.active_pairs(at);
    for index in 0..groups.len() {
        add_missing(alloc, frames, &pairs, &*results, groups.get(index), missing)?;
    }
    match results.apply(count, cited.conclusion, &Meter::new(None)) {
        Ok(is_done) => Ok(is_done),
        Err(_) => Err(AllocError),
    }
}

/// Returns whether the last results are what the hypotheses at these positions require.
fn are_hypotheses_met(frames: &Frames, results: &Results, mandatory: &[u32]) -> bool {
    let Some(base) = results.len().checked_sub(mandatory.len()) else {
        return false;
    };
    for (index, hypothesis) in mandatory.iter().enumerate() {
        let place = base.saturating_add(index);
        if place >= results.len()
            || !results.matches(place, expr_at(frames, *hypothesis as usize))
        {
            return false;
        }
    }
    true
}

/// Adds the pairs that no active `$d` has, of a variable in the image of one of the variables of a
/// group and a variable in the image of another one.
fn add_missing(
    alloc: Global,
    frames: &Frames,
    pairs: &Pairs<'_>,
    results: &Results,
    group: &[u32],
    missing: &mut BTreeSet<(u32, u32)>,
) -> Result<(), AllocError> {
    let mut earlier: Vec<Vec<u32>> = Vec::new(alloc);
    for variable in group {
        let image = variables_of_image(alloc, frames, pairs, results, *variable)?;
        for others in earlier.iter() {
            for one in image.iter() {
                for other in others.iter() {
                    if let Some(pair) = missing_pair(frames, pairs, *one, *other) {
                        missing.insert(pair)?;
                    }
                }
            }
        }
        earlier.push(image)?;
    }
    Ok(())
}

/// Returns the variables in the image of a variable of an assertion, each once.
fn variables_of_image(
    alloc: Global,
    frames: &Frames,
    pairs: &Pairs<'_>,
    results: &Results,
    variable: u32,
) -> Result<Vec<u32>, AllocError> {
    let mut symbols = BTreeSet::new(alloc);
    match results.image(variable) {
        Some(image) => {
            for symbol in image {
                symbols.insert(*symbol)?;
            }
        }
        None => {
            symbols.insert(variable)?;
        }
    }
    let mut variables = Vec::new(alloc);
    for symbol in symbols.iter() {
        if let Some(number) = variable_number(frames, pairs, *symbol) {
            variables.push(number)?;
        }
    }
    Ok(variables)
}

/// Returns two variables by their numbers, the smaller one first, if they are different and no
/// active `$d` has both.
fn missing_pair(frames: &Frames, pairs: &Pairs<'_>, one: u32, other: u32) -> Option<(u32, u32)>
    ensures ordered { IfSome result (λ pair. pair.0 < pair.1) }
    ensures missing { IfSome result (λ pair. is_numbered_pair pairs.now pair.0 pair.1 ≡ false) }
{
    let Some(one) = variable_number(frames, pairs, one) else {
        return None;
    };
    let Some(other) = variable_number(frames, pairs, other) else {
        return None;
    };
    let first = one.min(other);
    let second = one.max(other);
    if first == second || pairs.has(first, second) {
        return None;
    }
    Some((first, second))
}

/// Returns the number of a symbol if it is a variable, as looked up by its name.
fn variable_number(frames: &Frames, pairs: &Pairs<'_>, symbol: u32) -> Option<u32>
    ensures number { IfSome result (λ number. number < length pairs.now.names) }
    ensures variable { IfSome result
        (λ number. IsTrue (is_variable pairs.now.statements (name_at pairs.now.names number))) }
{
    let Some(number) = pairs.number(frames.symbol(symbol)) else {
        return None;
    };
    if pairs.variable(number) {
        Some(number)
    } else {
        None
    }
}
