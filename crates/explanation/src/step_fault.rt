//! Writes in words why a step of a proof fails.

use crate::expressions::push_excerpt;
use crate::theorem::Theorem;
use crate::written_lines::Lines;
use explain::{Excerpt, ItemFault};
use frame::Frames;

/// Writes the fault of the step, each line indented by two spaces.
pub(crate) fn push_fault(
    lines: &mut Lines<'_>,
    theorem: &Theorem<'_>,
    frames: &Frames,
    fault: &ItemFault,
) {
    match fault {
        ItemFault::UnknownLabel => lines.push(b"  no statement has this label\n"),
        ItemFault::Inactive { .. } => push_inactive(lines, theorem),
        // A hypothesis that comes after the theorem is not active there either.
        ItemFault::NotEarlier { statement } if theorem.is_hypothesis(*statement) => {
            push_inactive(lines, theorem);
        }
        ItemFault::NotEarlier { statement } => push_not_earlier(lines, theorem, *statement),
        ItemFault::TooFewResults {
            required,
            present,
            ..
        } => push_too_few_results(lines, *required, *present),
        ItemFault::OtherTypecode {
            hypothesis,
            result,
            ..
        } => push_other_typecode(lines, theorem, frames, *hypothesis, result),
        ItemFault::OtherExpression {
            hypothesis,
            required,
            result,
            ..
        } => push_other_expression(lines, theorem, frames, *hypothesis, required, result),
        ItemFault::NotDisjoint {
            first,
            second,
            in_first_image,
            in_second_image,
            ..
        } => push_not_disjoint(
            lines,
            frames,
            [*first, *second],
            [*in_first_image, *in_second_image],
        ),
        ItemFault::TooManySymbols => lines.push(
            b"  its results have more than 67108864 symbols, all together\n",
        ),
        ItemFault::NoMarkedResult => lines.push(b"  no such result is marked\n"),
    }
}

/// Writes that the cited hypothesis is not active at the theorem.
fn push_inactive(lines: &mut Lines<'_>, theorem: &Theorem<'_>) {
    lines.push(b"  this hypothesis is not active at ");
    lines.push(theorem.label);
    lines.push(b"\n");
}

/// Writes that the assertion at a position is the theorem itself or a later statement.
fn push_not_earlier(lines: &mut Lines<'_>, theorem: &Theorem<'_>, at: usize) {
    lines.push(b"  ");
    lines.push(theorem.label_at(at));
    if at == theorem.at {
        lines.push(b" is the theorem itself\n");
        return;
    }
    lines.push(b" comes after ");
    lines.push(theorem.label);
    lines.push(b"\n");
}

/// Writes that the step requires more results than are present.
fn push_too_few_results(lines: &mut Lines<'_>, required: usize, present: usize) {
    lines.push(b"  it takes ");
    lines.push_number(required);
    lines.push(if required == 1 {
        b" result, but finds ".as_slice()
    } else {
        b" results, but finds ".as_slice()
    });
    lines.push_number(present);
    lines.push(b"\n");
}

/// Writes that the result for a `$f` has another typecode.
fn push_other_typecode(
    lines: &mut Lines<'_>,
    theorem: &Theorem<'_>,
    frames: &Frames,
    hypothesis: usize,
    actual: &Excerpt,
) {
    push_hypothesis(lines, theorem, hypothesis);
    lines.push(b" asks for a result that begins with ");
    lines.push(theorem.typecode_at(hypothesis));
    push_actual(lines, frames, actual);
}

/// Writes that a result differs from the one that a hypothesis requires.
fn push_other_expression(
    lines: &mut Lines<'_>,
    theorem: &Theorem<'_>,
    frames: &Frames,
    hypothesis: usize,
    required: &Excerpt,
    actual: &Excerpt,
) {
    push_hypothesis(lines, theorem, hypothesis);
    lines.push(b" asks for");
    push_excerpt(lines, frames, required);
    push_actual(lines, frames, actual);
}

/// Writes the result that is there instead.
fn push_actual(lines: &mut Lines<'_>, frames: &Frames, actual: &Excerpt) {
    lines.push(b"\n  but the result there is");
    push_excerpt(lines, frames, actual);
    lines.push(b"\n");
}

/// Writes the label of the hypothesis at a position.
fn push_hypothesis(lines: &mut Lines<'_>, theorem: &Theorem<'_>, at: usize) {
    lines.push(b"  its hypothesis ");
    lines.push(theorem.label_at(at));
}

/// Writes that two variables violate the disjoint variable condition.
fn push_not_disjoint(
    lines: &mut Lines<'_>,
    frames: &Frames,
    variables: [u32; 2],
    variables_of_images: [u32; 2],
) {
    let [first, second] = variables;
    let [one, other] = variables_of_images;
    lines.push(b"  its variables ");
    lines.push(frames.symbol(first));
    lines.push(b" and ");
    lines.push(frames.symbol(second));
    lines.push(b" must be disjoint");
    if one == other {
        lines.push(b", and ");
        lines.push(frames.symbol(one));
        lines.push(b" stands in both of their images\n");
        return;
    }
    lines.push(b"\n  but no active $d has both ");
    lines.push(frames.symbol(one));
    lines.push(b" and ");
    lines.push(frames.symbol(other));
    lines.push(b", which stand in their images\n");
}
