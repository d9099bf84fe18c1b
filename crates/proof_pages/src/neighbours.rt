//! The assertions before and after an assertion.
ghost use Rattle.std.specs.Prelude.{◌≡◌};
ghost use Rattle.proof_pages.specs.LabelPages.{next_of, previous_of};

use crate::label_pages::is_assertion_at;
use mm_read::Stmt;

/// Returns the position of the last assertion before a position, if there is one.
///
/// Cost: the number of statements between the two.
#[tactic(auto, using(crate::proofs::PositionLemmas::previous_none))]
pub(crate) fn previous_assertion(statements: &[Stmt], at: usize) -> Option<usize>
    ensures { result ≡ previous_of statements.now at }
{
    let mut position = at;
    while position > 0 {
        position -= 1;
        if is_assertion_at(statements, position) {
            return Some(position);
        }
    }
    None
}

/// Returns the position of the first assertion after a position, if there is one.
///
/// Cost: the number of statements between the two.
#[tactic(auto, using(crate::proofs::PositionLemmas::next_found, crate::proofs::PositionLemmas::next_on, crate::proofs::PositionLemmas::next_none))]
pub(crate) fn next_assertion(statements: &[Stmt], at: usize) -> Option<usize>
    ensures { result ≡ next_of statements.now at }
{
    let mut position = at;
    while position < statements.len() {
        position += 1;
        if is_assertion_at(statements, position) {
            return Some(position);
        }
    }
    None
}
