//! The results on the stack where the run over the items of a proof stops.
ghost use Rattle.std.specs.Prelude.{◌≡◌, ◌++◌, List, IfOk, IfSome, IsTrue, MatchOption, OnOk};
ghost use Rattle.mm_lex.specs.Words.{is_word};
ghost use Rattle.mm_read.specs.declared.stmt.Stmt.{Stmt as Statement};
ghost use Rattle.proof_code.specs.Writes.{Writes};
ghost use Rattle.proof_code.specs.declared.item.Item.{Item};
ghost use Rattle.verify.specs.Proves.{mandatory_labels};
ghost use Rattle.verify.specs.Right.{IsProvable};
ghost use Rattle.explanation.specs.Fronts.{WritesFront, before_spot, first_bytes};

use crate::expressions::{expr_at, push_expression};
use crate::item_spots::{Spot, letter_spot};
use crate::statement_symbols::token_at;
use crate::theorem::Theorem;
use crate::written_lines::Lines;
use explain::{CodeBreak, WhyUnproved, explain, items_of, labels_of};
use frame::Frames;
use mm_lex::Words;
use proof_code::{Items, is_compressed};
use std::alloc::{AllocError, Global};
use verify::{Failure, Results, first_failure};

/// How many of the last results are written.
const LAST_RESULTS: usize = 3;

/// Writes how many results are on the stack where the run over the items stops, and the last of
/// them; nothing if there are none.
pub(crate) fn push_stack(
    alloc: Global,
    lines: &mut Lines<'_>,
    frames: &Frames,
    at: usize,
    items: &Items,
)
    requires { (s : Statement) × IsProvable frames.now.statements at s }
{
    match lines.ok_or_fail(first_failure(alloc, frames, at, items)) {
        Some(Some(Failure::Item { results, .. })) => push_results(lines, frames, &results),
        Some(Some(Failure::End { results })) => push_results(lines, frames, &results),
        Some(None) => {
            push_height(lines, 1);
            push_result(lines, frames, expr_at(frames, at));
        }
        None => {}
    }
}

/// Writes as `push_stack` does, for the tokens before the place at which they break a rule of proof
/// code.
pub(crate) fn push_stack_before(
    alloc: Global,
    lines: &mut Lines<'_>,
    frames: &Frames,
    theorem: &Theorem<'_>,
    broken: CodeBreak,
)
    requires { (s : Statement) × IsProvable frames.now.statements theorem.now.at s }
{
    let Some(spot) = spot_of_break(theorem.proof, broken) else {
        return;
    };
    let found = items_before(alloc, frames, theorem.at, theorem.proof, spot);
    if let Some(Some(items)) = lines.ok_or_fail(found) {
        push_stack(alloc, lines, frames, theorem.at, &items);
    }
}

/// Returns the items that the tokens of a proof write; if they break a rule of proof code, those that
/// the tokens before that place write, if they write any.
///
/// Errors and cost: those of `explain::explain`.
pub fn items_so_far(
    alloc: Global,
    frames: &Frames,
    at: usize,
    proof: &Words,
) -> Result<Option<Items>, AllocError>
    requires { (s : Statement) × IsProvable frames.now.statements at s }
    ensures { (s : Statement) → IsProvable frames.now.statements at s
        → IfOk result (λ found. IfSome found
        (WritesFront proof.now (mandatory_labels frames.now.statements at s))) }
{
    match explain(alloc, frames, at, proof)? {
        Some(WhyUnproved::Code(broken)) => match spot_of_break(proof, broken) {
            Some(spot) => items_before(alloc, frames, at, proof, spot),
            None => Ok(None),
        },
        _ => {
            let end = Spot {
                token: proof.len(),
                byte: 0,
            };
            items_before(alloc, frames, at, proof, end)
        }
    }
}

/// Returns where the tokens that write no items begin, if items may stand before them.
fn spot_of_break(proof: &Words, broken: CodeBreak) -> Option<Spot> {
    match broken {
        CodeBreak::Unfinished { token } => Some(unfinished_spot(proof, token)),
        CodeBreak::NotLabel { token } if !is_compressed(proof) => Some(Spot { token, byte: 0 }),
        CodeBreak::Letters(broken) => Some(letter_spot(proof, broken.letter)),
        _ => None,
    }
}

/// Returns where the unfinished part of a token begins: at its `?`, in the letters of a compressed
/// proof at the letters U to Y before it.
fn unfinished_spot(proof: &Words, token: usize) -> Spot {
    if !is_compressed(proof) {
        return Spot { token, byte: 0 };
    }
    let word = token_at(proof, token);
    let mut byte = 0usize;
    for (index, letter) in word.iter().enumerate() {
        match *letter {
            b'?' => break,
            b'U'..=b'Y' => {}
            _ => byte = index.saturating_add(1),
        }
    }
    Spot { token, byte }
}

/// Returns the items that the tokens before a spot write, or `None` if they write none.
fn items_before(
    alloc: Global,
    frames: &Frames,
    at: usize,
    proof: &Words,
    spot: Spot,
) -> Result<Option<Items>, AllocError>
    requires { (s : Statement) × IsProvable frames.now.statements at s }
    ensures { (s : Statement) → IsProvable frames.now.statements at s
        → IfOk result (λ found. MatchOption found
        ((other : List Item) → ¬ Writes (before_spot proof.now spot.token spot.byte)
        (mandatory_labels frames.now.statements at s) other)
        (λ items. Writes (before_spot proof.now spot.token spot.byte)
        (mandatory_labels frames.now.statements at s) items)) }
{
    let labels = labels_of(alloc, frames, at)?;
    let tokens = tokens_before(alloc, proof, spot)?;
    items_of(alloc, &tokens, &labels)
}

/// Returns the tokens before a spot, of its own token the bytes before it.
fn tokens_before(alloc: Global, proof: &Words, spot: Spot) -> Result<Words, AllocError>
    ensures { IfOk result (λ tokens. tokens ≡ before_spot proof.now spot.token spot.byte) }
{
    let mut tokens = Words::new(alloc);
    let mut rest = proof.iter();
    let mut left = spot.token;
    while let Some(word) = rest.next() {
        if left == 0 {
            push_first_bytes(&mut tokens, word, spot.byte)?;
            return Ok(tokens);
        }
        tokens.push(word)?;
        left -= 1;
    }
    Ok(tokens)
}

/// Appends the first bytes of a word, if there are any.
fn push_first_bytes(tokens: &mut Words, word: &[u8], count: usize) -> Result<(), AllocError>
    requires { IsTrue (is_word word.now) }
    ensures { OnOk result (tokens.new ≡ tokens.old ++ first_bytes word.now count) }
{
    if count == 0 {
        return Ok(());
    }
    if count >= word.len() {
        return tokens.push(word);
    }
    tokens.push(&word[..count])
}

/// Writes the last of these results, and how many there are; nothing if there are none.
fn push_results(lines: &mut Lines<'_>, frames: &Frames, results: &Results) {
    let count = results.len();
    if count == 0 {
        return;
    }
    push_height(lines, count);
    for index in count.saturating_sub(LAST_RESULTS)..count {
        push_result(lines, frames, results.get(index));
    }
}

/// Writes how many results are on the stack.
fn push_height(lines: &mut Lines<'_>, count: usize) {
    lines.push(b"  ");
    lines.push_number(count);
    lines.push(if count == 1 {
        b" result is on the stack:\n".as_slice()
    } else if count > LAST_RESULTS {
        b" results are on the stack, the last of them:\n".as_slice()
    } else {
        b" results are on the stack:\n".as_slice()
    });
}

/// Writes a result on a line of its own.
fn push_result(lines: &mut Lines<'_>, frames: &Frames, expr: &[u32]) {
    lines.push(b"   ");
    push_expression(lines, frames, expr);
    lines.push(b"\n");
}
