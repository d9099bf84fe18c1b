//! Tests of `library` and the crates below it that no row of the crate `rows` (an input with its
//! printed output) can express: spans of tokens, items of proof tokens, texts read in parts, copies
//! of a scope, frames of worked examples, simultaneous substitution, verdicts by several workers in
//! parallel, texts of the greatest length, and results after a failed allocation.
//!
//! A test of failed allocations calls again what ran out of memory. By itself it runs with ample
//! memory; `bench/failed_allocations` runs it for each of its allocations, at most 2,000, with that
//! allocation failing, alone and with all later ones.
//!
//! Helpers of other modules: `pushed_statements` (for `derivations` and `pool_workers`) and
//! `rendezvous`, and in modules that also have tests `text_entries` (`entry`, `with_new_library`,
//! `verdict_on`) and `library_workers` (`verdict_by_workers`).
#![tactic(auto)]

#[cfg(test)]
mod derivations;
#[cfg(test)]
mod failed_allocations;
#[cfg(test)]
mod library_workers;
#[cfg(test)]
mod pool_workers;
#[cfg(test)]
mod proof_tokens;
#[cfg(test)]
mod pushed_statements;
#[cfg(test)]
mod rendezvous;
#[cfg(test)]
mod scopes;
#[cfg(test)]
mod substitution;
#[cfg(test)]
mod text_entries;
#[cfg(test)]
mod texts_in_parts;
#[cfg(test)]
mod token_spans;
#[cfg(test)]
mod worked_frames;
