//! The verifier: whether the items of a proof are a right proof of a statement, and the derivation
//! that they spell.
//!
//! The main contract is that of `Checker::prove`: it returns `Proved` if and only if the tokens
//! write items that spell a derivation which concludes the statement's expression, with a weight
//! (the symbols of all that they conclude) within the limit; else it returns `Wrong`. `check` does
//! so for the items themselves; `first_failure` returns where their run fails.
//!
//! One run goes over the items (`failure::run_items`) and tells a `Listener` of each that was done.
//!
//! Reading order: `answer`, `tree`, `meter`; `disjointness`, `results` (as ranges of one buffer),
//! `label_table`, `listener`, `citation` (one item), `failure` (all items), `checker` (a whole
//! proof); `plan` (a listener that makes the derivation); `laws`.
#![tactic(auto)]

mod answer;
mod checker;
mod citation;
mod disjointness;
mod failure;
mod label_table;
pub mod laws;
mod listener;
mod meter;
mod plan;
mod results;
mod tree;

pub use answer::{Answer, TreeFault};
pub use checker::{Checker, check};
pub use failure::{Failure, Outcome, first_failure, run};
pub use listener::Listener;
pub use meter::Meter;
pub use plan::{MAX_DEPTH, MAX_NODES, derivation};
pub use results::Results;
pub use subst::Stop;
pub use tree::Tree;
