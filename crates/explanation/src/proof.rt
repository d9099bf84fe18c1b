//! Explains why a proof is wrong or unfinished.
//!
//! Proof code is the form of a proof's tokens, normal or compressed; the items that they write are
//! citations, recalls and marks (`item_spots`). Either the tokens break a rule of proof code, so
//! that they cannot be read as items; or the run, in which the verifier goes through the items with
//! a stack of results, fails at one of them or does not end with the theorem alone.
ghost use Rattle.mm_read.specs.declared.stmt.Stmt.{Stmt as Statement};
ghost use Rattle.mm_read.specs.Statements.{AreShaped};
ghost use Rattle.verify.specs.Right.{IsProvable};

use crate::code_break::explain_break;
use crate::expressions::{expr_at, push_excerpt, push_expression};
use crate::item_spots::{spot_of, step_of};
use crate::left_out::push_left_out;
use crate::missing_pairs::push_missing_pairs;
use crate::stack::{push_stack, push_stack_before};
use crate::statement_symbols::token_at;
use crate::step_fault::push_fault;
use crate::text_tokens::TextTokens;
use crate::theorem::Theorem;
use crate::written_lines::Lines;
use explain::{Excerpt, ItemFault, Reason, WhyUnproved, explain};
use frame::Frames;
use mm_read::{ReadFault, Stmt, read};
use proof_code::Items;
use std::alloc::Global;
use unproved::{LeftOut, LegalDatabase};

/// Writes the rule of proof code that a proof breaks, or the first fault of its run.
pub(crate) fn explain_proof(alloc: Global, lines: &mut Lines<'_>, text: &[u8], statement: usize) {
    match read(alloc, text) {
        Ok(statements) => explain_unproved_in(alloc, lines, text, statements, statement),
        Err(ReadFault::Memory) => lines.fail(),
        Err(_) => {}
    }
}

/// Writes why the proof of the `$p` at a position is wrong or unfinished, given the statements
/// parsed from the text.
fn explain_unproved_in(
    alloc: Global,
    lines: &mut Lines<'_>,
    text: &[u8],
    statements: Vec<Stmt>,
    statement: usize,
)
    requires { AreShaped statements.items }
{
    if let Some(Some(database)) = lines.ok_or_fail(LegalDatabase::new(alloc, statements)) {
        explain_in_text(alloc, lines, text, &database, statement);
    }
}

/// Writes why the proof of the `$p` at a position is wrong or unfinished, given the statements with
/// their frames.
fn explain_in_text(
    alloc: Global,
    lines: &mut Lines<'_>,
    text: &[u8],
    database: &LegalDatabase,
    statement: usize,
) {
    if let Some(tokens) = lines.ok_or_fail(TextTokens::new(alloc, text)) {
        explain_in_database(alloc, lines, &tokens, database, &[], statement);
    }
}

/// Writes why the proof of the `$p` at a position is wrong or unfinished, given the tokens of the
/// text and its statements with their frames, of which these are left out.
pub(crate) fn explain_in_database(
    alloc: Global,
    lines: &mut Lines<'_>,
    tokens: &TextTokens<'_>,
    database: &LegalDatabase,
    left_out: &[LeftOut],
    statement: usize,
) {
    if let Some(theorem) = Theorem::new(tokens, database.statements(), left_out, statement) {
        explain_theorem(alloc, lines, database.frames(), &theorem);
    }
}

/// Writes why the proof of the theorem is wrong or unfinished.
fn explain_theorem(alloc: Global, lines: &mut Lines<'_>, frames: &Frames, theorem: &Theorem<'_>)
    requires { (s : Statement) × IsProvable frames.now.statements theorem.now.at s }
{
    let why = explain(alloc, frames, theorem.at, theorem.proof);
    if let Some(Some(why)) = lines.ok_or_fail(why) {
        explain_why(lines, frames, theorem, &why);
        explain_state(alloc, lines, frames, theorem, &why);
    }
}

/// Writes the reason: the rule of proof code that is broken, or the first fault of the run.
fn explain_why(lines: &mut Lines<'_>, frames: &Frames, theorem: &Theorem<'_>, why: &WhyUnproved) {
    match why {
        WhyUnproved::Code(broken) => explain_break(lines, theorem, *broken),
        WhyUnproved::Run { items, reason } => {
            explain_reason(lines, frames, theorem, items, reason);
        }
    }
}

/// Writes which `$d` the proof lacks if it violates the disjoint variable condition, and the last
/// results before the fault.
fn explain_state(
    alloc: Global,
    lines: &mut Lines<'_>,
    frames: &Frames,
    theorem: &Theorem<'_>,
    why: &WhyUnproved,
)
    requires { (s : Statement) × IsProvable frames.now.statements theorem.now.at s }
{
    match why {
        WhyUnproved::Code(broken) => push_stack_before(alloc, lines, frames, theorem, *broken),
        WhyUnproved::Run { items, reason } => match reason {
            Reason::Item { fault, .. } => {
                if matches!(fault, ItemFault::NotDisjoint { .. }) {
                    push_missing_pairs(alloc, lines, frames, theorem.at, items);
                }
                push_stack(alloc, lines, frames, theorem.at, items);
            }
            Reason::ResultCount { .. } => push_stack(alloc, lines, frames, theorem.at, items),
            // The only result is told already.
            Reason::OtherTheorem { .. } => {}
        },
    }
}

/// Writes the first fault of the run over the items.
fn explain_reason(
    lines: &mut Lines<'_>,
    frames: &Frames,
    theorem: &Theorem<'_>,
    items: &Items,
    reason: &Reason,
) {
    match reason {
        Reason::Item { item, fault } => {
            explain_step(lines, frames, theorem, items, *item, fault);
        }
        Reason::ResultCount { count } => explain_result_count(lines, theorem, *count),
        Reason::OtherTheorem { proved } => explain_other_theorem(lines, frames, theorem, proved),
    }
}

/// Writes at which item the run fails, and why.
fn explain_step(
    lines: &mut Lines<'_>,
    frames: &Frames,
    theorem: &Theorem<'_>,
    items: &Items,
    item: usize,
    fault: &ItemFault,
) {
    theorem.push_spot(lines, spot_of(theorem.proof, item));
    push_step(lines, items, item);
    push_fault(lines, theorem, frames, fault);
    if matches!(fault, ItemFault::UnknownLabel) {
        let label = label_of_item(items, item);
        push_left_out(lines, theorem.tokens, theorem.left_out, label);
    }
}

/// Writes that the stack at the end does not have exactly one result.
fn explain_result_count(lines: &mut Lines<'_>, theorem: &Theorem<'_>, count: usize) {
    theorem.push_end(lines);
    lines.push(b" is wrong at its end\n  it leaves ");
    lines.push_number(count);
    lines.push(b" results, and one has to be left\n");
}

/// Writes that the proof proves another expression than the theorem's.
fn explain_other_theorem(
    lines: &mut Lines<'_>,
    frames: &Frames,
    theorem: &Theorem<'_>,
    proved: &Excerpt,
) {
    theorem.push_end(lines);
    lines.push(b" is wrong at its end\n  it proves");
    push_excerpt(lines, frames, proved);
    lines.push(b"\n  but ");
    lines.push(theorem.label);
    lines.push(b" says");
    push_expression(lines, frames, expr_at(frames, theorem.at));
    lines.push(b"\n");
}

/// Returns the label that an item cites, or an empty one if it cites none.
fn label_of_item(items: &Items, item: usize) -> &[u8] {
    let parts = items.parts();
    match parts.numbers.get(item) {
        Some(number) if *number > 0 => token_at(parts.labels, *number as usize - 1),
        _ => b"",
    }
}

/// Writes the step number of the item, and that it marks a result, recalls one, or cites a label,
/// and which label.
fn push_step(lines: &mut Lines<'_>, items: &Items, item: usize) {
    let parts = items.parts();
    lines.push(b" is wrong at step ");
    lines.push_number(step_of(parts.numbers, item));
    let number = match parts.numbers.get(item) {
        Some(number) => *number as usize,
        None => 0,
    };
    if number == 0 {
        lines.push(b", which marks a result\n");
        return;
    }
    if number > parts.labels.len() {
        lines.push(b", which recalls a result\n");
        return;
    }
    lines.push(b", which cites ");
    lines.push(token_at(parts.labels, number - 1));
    lines.push(b"\n");
}
