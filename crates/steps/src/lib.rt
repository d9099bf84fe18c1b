//! The steps of a proof as a table without duplicates, each step with its expression. The
//! expression of the last step is that of the theorem.
//!
//! `proof_table` returns the steps of a right proof in the order in which its items make them, each
//! with the expression that its citation concludes. An item is a citation, a mark (`Z`) or a recall
//! of a marked result; only citations make steps. `essential_table` returns the essential steps of
//! such a table: the last step, and those that an essential step takes for a `$e`. A place is the
//! index of a step in the table, from 0.
//!
//! Reading order: `steps_table` (the table, and `proof_table`), `table_draft` (listens to the run of
//! `verify` over the items), `step_places` (finds equal steps), `essential` (the essential steps),
//! `so_far` (the steps of a proof that is not finished) with `known_part`, `laws`.
#![tactic(auto)]

mod essential;
mod known_part;
pub mod laws;
mod so_far;
mod step_places;
mod steps_table;
mod table_draft;

pub use essential::essential_table;
pub use so_far::{NormalSoFar, StepsSoFar, normal_so_far, steps_so_far};
pub use steps_table::{ProofTable, proof_table};
