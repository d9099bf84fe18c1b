//! A word of a description.
ghost use Rattle.std.specs.Prelude.{◌≡◌, ◌++◌, IfOk};
ghost use Rattle.markup.specs.Roles.{first_or_space, word_html, state_after_word};

use crate::byte_roles::{State, push_role, role_of, state_after};
use std::alloc::AllocError;

/// Appends a word of a description, and returns the state after it.
///
/// Errors: an allocation fails. Cost: the length of the word.
#[tactic(auto, using(crate::proofs::MarkupLemmas::word_on, crate::proofs::MarkupLemmas::word_state_on))]
pub(crate) fn push_word(page: &mut Vec<u8>, state: State, word: &[u8]) -> Result<State, AllocError>
    ensures written { IfOk result (λ _. page.new.items ≡ page.old.items ++ word_html state 32 word.now) }
    ensures state { IfOk result (λ after. after ≡ state_after_word state 32 word.now) }
{
    let mut state_here = state;
    let mut before = b' ';
    let mut rest = word;
    while let Some((byte, others)) = rest.split_first() {
        let role = role_of(state_here, before, *byte, first_or_space(others));
        push_role(page, role, *byte)?;
        state_here = state_after(state_here, role);
        before = *byte;
        rest = others;
    }
    Ok(state_here)
}

/// Returns the first of these bytes, or a space if there is none.
fn first_or_space(bytes: &[u8]) -> u8
    ensures { result ≡ first_or_space bytes.now }
{
    match bytes.first() {
        Some(byte) => *byte,
        None => b' ',
    }
}
