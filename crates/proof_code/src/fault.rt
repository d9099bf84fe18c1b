//! Why the tokens of a proof write no items.
ghost use Rattle.std.specs.Prelude.{◌≡◌, ◌⊎◌, Ok, Err, IfOk, OnErr, MatchOption};
ghost use Rattle.proof_code.specs.Writes.{is_unfinished};

use crate::items::Items;
use mm_lex::Words;
use std::alloc::AllocError;

/// Why the tokens of a proof write no items; or an allocation failed.
#[derive(Clone, Copy, Debug, Drop, PartialEq, Eq)]
pub enum CodeFault {
    /// Some token has the byte `?`.
    Unfinished,
    /// No token has the byte `?`, and the tokens write no items.
    Malformed,
    /// An allocation failed, or there are too many labels or letters (`MAX_LABELS_OR_LETTERS`).
    Memory,
}

/// Returns whether some token has the byte `?`. Cost: the size of the tokens.
#[tactic(auto, using(crate::proofs::AnswersLemmas::is_unfinished_text))]
pub fn is_unfinished(tokens: &Words) -> bool
    ensures { result ≡ is_unfinished tokens.now }
{
    tokens.as_text().contains(&b'?')
}

/// Returns the items, or `None` if the tokens write none.
///
/// Errors: `AllocError`, if the fault is `Memory`.
pub fn items_or_none(items: Result<Items, CodeFault>) -> Result<Option<Items>, AllocError>
    ensures found { IfOk result (λ found. MatchOption found
        ((items ≡ Err CodeFault.Unfinished) ⊎ (items ≡ Err CodeFault.Malformed)) (λ found. items ≡ Ok found)) }
    ensures only_memory { OnErr result (items ≡ Err CodeFault.Memory) }
{
    match items {
        Ok(items) => Ok(Some(items)),
        Err(CodeFault::Unfinished | CodeFault::Malformed) => Ok(None),
        Err(CodeFault::Memory) => Err(AllocError),
    }
}
