//! The frames of assertions: mandatory hypotheses, disjoint variable conditions and conclusion.
//!
//! `Frames` keeps the statements of a database by position, and answers what a verifier asks: what
//! a citation means at a statement, the parts of an assertion, and which variables are disjoint.
//! `frame` collects the `Frame` of one assertion from the active statements.
//!
//! `Frames` has numbers for symbols, also called codes; `frame` and `Frame` have names. A position
//! counts from 1, an index from 0.
//!
//! Reading order: `storage`, `shape`, `at_position`, `first_active`, `disjoints_with`, `pairs`,
//! `pair_buffer`, `frame_buffers`; `symbol_numbers`, `next_mentions`, `declare`, `mandatory`,
//! `sizes`, `assertion_parts`, `extend` (appending and truncating); `meaning`, `frames`,
//! `disjoint_groups`, `active_disjoint` (queries); `assertion`, `one_frame`; `laws`.
#![tactic(auto)]

mod active_disjoint;
mod assertion;
mod assertion_parts;
mod at_position;
mod declare;
mod disjoint_groups;
mod disjoints_with;
mod extend;
mod first_active;
mod frame_buffers;
mod frames;
mod laws;
mod mandatory;
mod meaning;
mod next_mentions;
mod one_frame;
mod pair_buffer;
mod pairs;
mod shape;
mod sizes;
mod storage;
mod symbol_numbers;

pub use assertion::Frame;
pub use disjoint_groups::DisjointGroups;
pub use disjoints_with::DisjointsWith;
pub use frame_buffers::FrameBuffers;
pub use frames::Frames;
pub use laws::{groups_have_mandatory_pairs, pair_lists_decide_as_groups};
pub use meaning::Meaning;
pub use one_frame::frame;
pub use pair_buffer::PairBuffer;
pub use pairs::Pairs;
pub use shape::is_assertion;
