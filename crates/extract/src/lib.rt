//! Extracts some assertions of a library as a smaller database, with what they need and little
//! else.
//!
//! `extract` returns a text that reads as good statements of the library, in their order, and has
//! each named assertion with its mandatory hypotheses and disjoint variables. No clause says which
//! statements are chosen: a second library verifies them, `comparison` compares it with the whole
//! library (its rules and its frames; it judges no proof), and if anything is missing the whole
//! library is returned.
//!
//! Reading order: `fault`, `label_search`, `labels` (checks them), `cited`, `disjoint_lists` and
//! `choice` (the statements), `comparison`, `extraction`.
#![tactic(auto)]

mod choice;
mod cited;
mod comparison;
mod disjoint_lists;
mod extraction;
mod fault;
mod label_search;
mod labels;

pub use extraction::extract;
pub use fault::ExtractFault;
