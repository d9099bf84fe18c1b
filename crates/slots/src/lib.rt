//! Entries by slot: a finite map from the slots of the log, kept in pages of 256 slots.
//!
//! A caller reserves capacity for a slot (`room`), which may fail, and then puts an entry there,
//! which does not allocate. Contracts see the entries of `Slots` and its capacity: the number of
//! slots, from 0 on, for which memory is reserved.
//!
//! Reading order: `page`, `pages`, `slots`.
#![tactic(auto)]

mod page;
mod pages;
mod slots;

pub use slots::{SLOTS, Slots};
