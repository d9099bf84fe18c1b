//! Reads a text in parallel, with the same answer as by one thread.
//!
//! `read_in_parts` meets each clause of `mm_read::read`, whatever the number of workers.
//!
//! Reading order: `specs/Cut` and `cut` (where a text is cut), `parts`.
#![tactic(auto)]

mod cut;
mod parts;

pub use parts::read_in_parts;
