//! Why a proof is refused.
//!
//! `explain` returns the reason why the tokens of a `$p` do not prove it: the rule of proof code
//! that they break, or the first fault of the run over the items that they write. Proof code is the
//! form of a proof's tokens, normal or compressed (`proof_code`); the items are its citations,
//! marks and recalls. `explain` first verifies the proof. `first_fault` runs the verifier over the
//! items, and derives the fault of the item at which the run stops from the results at that point.
//!
//! A letter group is the letters of one number in a compressed proof: letters U to Y, then one of A
//! to T. Any other group is the list of the mandatory variables of one active `$d` of an assertion.
//! In `CodeBreak`, `code_break`, `broken_code` and `WhyUnproved::Code`, code is proof code; any
//! other code is the number of a symbol.
//!
//! Reading order: `why`, `proof_fault`, `broken_code`, `broken_letters`; then `excerpt`, `reason`,
//! `citation`, `run`.
#![tactic(auto)]

mod broken_code;
mod broken_letters;
mod citation;
mod excerpt;
mod proof_fault;
mod reason;
mod run;
mod why;

pub use excerpt::{EXCERPT_LEN, Excerpt};
pub use proof_fault::{explain, items_of, labels_of};
pub use reason::{ItemFault, Reason};
pub use run::first_fault;
pub use why::{CodeBreak, LetterBreak, LetterFault, WhyUnproved};
