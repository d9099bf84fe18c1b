//! The reason why a `$p` is not proved.
ghost use Rattle.std.specs.Prelude.{◌≡◌, List, IfOk, IfSome, IsTrue, MatchOption};
ghost use Rattle.std.specs.List.{list_all};
ghost use Rattle.mm_lex.specs.Alphabet.{is_visible};
ghost use Rattle.mm_lex.specs.Words.{is_word};
ghost use Rattle.mm_read.specs.declared.stmt.Stmt.{Stmt as Statement};
ghost use Rattle.proof_code.specs.Writes.{Writes};
ghost use Rattle.proof_code.specs.declared.item.Item.{Item};
ghost use Rattle.verify.specs.Proves.{Proves, mandatory_labels};
ghost use Rattle.verify.specs.Right.{IsProvable};
ghost use Rattle.explain.specs.Why.{IsWhy};

use crate::broken_code::code_break;
use crate::run::first_fault;
use crate::why::WhyUnproved;
use frame::Frames;
use mm_lex::Words;
use proof_code::{Items, is_compressed, items_or_none, normal, packed};
use std::alloc::{AllocError, Global};
use verify::{Answer, Checker, Meter};

/// Returns why the tokens do not prove the `$p` at a position, or `None` if they do.
///
/// Errors: an allocation fails; the label of a mandatory hypothesis is not a word; or there are
/// more than 2^30 tokens, mandatory labels or letters. Cost: that of verifying the proof, of
/// `first_fault` and of `code_break`.
pub fn explain(
    alloc: Global,
    frames: &Frames,
    at: usize,
    tokens: &Words,
) -> Result<Option<WhyUnproved>, AllocError>
    requires { (s : Statement) × IsProvable frames.now.statements at s }
    ensures proved { IfOk result
        (λ why. MatchOption why (Proves frames.now.statements at tokens.now)
        (λ _. ¬ Proves frames.now.statements at tokens.now)) }
    ensures first { IfOk result (λ why. IfSome why (IsWhy frames.now.statements frames.now.names at tokens.now)) }
{
    match Checker::new(alloc).prove(frames, at, tokens, &mut Meter::new(None))? {
        Answer::Proved => Ok(None),
        Answer::Wrong => Ok(Some(explain_wrong(alloc, frames, at, tokens)?)),
        Answer::TooCostly => unreachable!(),
    }
}

/// Returns why the tokens do not prove the `$p`, given that they do not.
///
/// Errors: those of `explain`.
fn explain_wrong(
    alloc: Global,
    frames: &Frames,
    at: usize,
    tokens: &Words,
) -> Result<WhyUnproved, AllocError>
    requires provable { (s : Statement) × IsProvable frames.now.statements at s }
    requires wrong { ¬ Proves frames.now.statements at tokens.now }
    ensures { IfOk result (IsWhy frames.now.statements frames.now.names at tokens.now) }
{
    let labels = labels_of(alloc, frames, at)?;
    let Some(items) = items_of(alloc, tokens, &labels)? else {
        return Ok(WhyUnproved::Code(code_break(alloc, tokens, &labels)?));
    };
    match first_fault(alloc, frames, at, &items)? {
        Some(reason) => Ok(WhyUnproved::Run { items, reason }),
        None => unreachable!(),
    }
}

/// Returns the items that the tokens write under these mandatory labels, or `None` if they write
/// none.
///
/// Errors: an allocation fails. Cost: the size of the tokens, and that of `proof_code::packed`.
pub fn items_of(
    alloc: Global,
    tokens: &Words,
    mandatory: &Words,
) -> Result<Option<Items>, AllocError>
    ensures { IfOk result (λ items. MatchOption items ((other : List Item) → ¬ Writes tokens.now mandatory.now other)
        (λ items. Writes tokens.now mandatory.now items)) }
{
    if is_compressed(tokens) {
        items_or_none(packed(alloc, tokens, mandatory))
    } else {
        items_or_none(normal(alloc, tokens))
    }
}

/// Returns the labels of the mandatory hypotheses of the `$p` at a position, in order.
///
/// Errors: an allocation fails, or a label is not a word; no parsed statement has such a label.
/// Cost: the size of the labels, and that of `Frames::mandatory`.
pub fn labels_of(alloc: Global, frames: &Frames, at: usize) -> Result<Words, AllocError>
    requires { (s : Statement) × IsProvable frames.now.statements at s }
    ensures { IfOk result
        (λ labels. (s : Statement) → IsProvable frames.now.statements at s
        → labels ≡ mandatory_labels frames.now.statements at s) }
{
    let mut mandatory = Vec::new(alloc);
    frames.mandatory(at, &mut mandatory)?;
    let mut labels = Words::new(alloc);
    for position in mandatory.as_slice() {
        match frames.label(*position as usize) {
            Some(label) if is_word(label) => labels.push(label)?,
            _ => return Err(AllocError),
        }
    }
    Ok(labels)
}

/// Returns whether the bytes are a word.
fn is_word(bytes: &[u8]) -> bool
    ensures { IsTrue result → IsTrue (is_word bytes.now) }
{
    !bytes.is_empty() && are_visible(bytes)
}

/// Returns whether each byte is a visible character of ASCII.
fn are_visible(bytes: &[u8]) -> bool
    ensures { result ≡ list_all is_visible bytes.now }
{
    bytes.iter().all(|byte| byte.is_ascii_graphic())
}
