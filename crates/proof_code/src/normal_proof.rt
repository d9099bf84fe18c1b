//! Normal proofs.
ghost use Rattle.std.specs.Prelude.{◌≡◌, ◌↔◌, IsTrue, IfOk, Err, map};
ghost use Rattle.std.specs.List.{list_all};
ghost use Rattle.mm_lex.specs.Alphabet.{is_label};
ghost use Rattle.proof_code.specs.declared.item.Item.TheVariants.{Cite};
ghost use Rattle.proof_code.specs.Writes.{is_unfinished, WritesFinishedNormal, IsMalformed};

use crate::fault::{CodeFault, is_unfinished};
use crate::items::Items;
use mm_lex::{Words, is_label};
use std::alloc::{AllocError, Global};

/// Returns the items of a normal proof: a citation for each token.
///
/// Errors: `Unfinished` if a token has the byte `?`, else `Malformed` if a token is not a label,
/// both even if every allocation fails; else `Memory`. Cost: the size of the tokens.
/// Source: Metamath, 4.3.
pub fn normal(alloc: Global, tokens: &Words) -> Result<Items, CodeFault>
    ensures items { IfOk result (λ items. WritesFinishedNormal tokens.now items) }
    ensures unfinished { (result ≡ Err CodeFault.Unfinished) ↔ IsTrue (is_unfinished tokens.now) }
    ensures malformed { (result ≡ Err CodeFault.Malformed) ↔ IsMalformed tokens.now (WritesFinishedNormal tokens.now) }
{
    if is_unfinished(tokens) {
        return Err(CodeFault::Unfinished);
    }
    if !are_labels(tokens) {
        return Err(CodeFault::Malformed);
    }
    match cite_all(alloc, tokens) {
        Ok(items) => Ok(items),
        Err(AllocError) => Err(CodeFault::Memory),
    }
}

/// Returns whether each token is a label.
fn are_labels(tokens: &Words) -> bool
    ensures { result ≡ list_all is_label tokens.now }
{
    tokens.iter().all(|token| is_label(token))
}

/// Returns a citation of each of these labels.
fn cite_all(alloc: Global, labels: &Words) -> Result<Items, AllocError>
    ensures { IfOk result (λ items. items ≡ map (λ label. Cite label) labels.now) }
{
    let Ok(count) = u32::try_from(labels.len()) else {
        return Err(AllocError);
    };
    let mut numbers = Vec::with_capacity(alloc, count as usize)?;
    for index in 0..count {
        numbers.push(index + 1)?;
    }
    Ok(Items::from_parts(labels.copy(alloc)?, numbers))
}
