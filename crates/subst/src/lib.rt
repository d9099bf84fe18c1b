//! Simultaneous substitution of images into expressions.
//!
//! A symbol's image is a range of a buffer of symbols (`SymbolRange`, `ImageRanges`, `Buffer`). So
//! a verifier takes images from its results, compares symbols with an expression under these images
//! without writing it, and appends the expression under them to the buffer. `Subst` is a table of
//! images with a buffer of its own, and `apply` substitutes them all at once. Symbols are numbers;
//! by a law, this is substitution over the names that they stand for. `DisjointImages` decides
//! whether images meet the disjoint variable condition; `first_violation` finds two that do not.
//!
//! Reading order: `symbol_range`, `image_ranges`, `copies`, `writing`, `matching`, `buffer`,
//! `images`, `disjoint_condition`; `symbol_set`, `variable_lists`, `stop`, `disjoint_images`,
//! `violation`; `laws`.
#![tactic(auto)]

mod buffer;
mod copies;
mod disjoint_condition;
mod disjoint_images;
mod image_ranges;
mod images;
mod laws;
mod matching;
mod stop;
mod symbol_range;
mod symbol_set;
mod variable_lists;
mod violation;
mod writing;

pub use buffer::{Buffer, SYMBOLS_LIMIT, apply_into};
pub use disjoint_condition::disjoint;
pub use disjoint_images::DisjointImages;
pub use image_ranges::ImageRanges;
pub use images::{Subst, apply, has_room};
pub use laws::{disjoint_condition_law, substitution_over_names};
pub use stop::Stop;
pub use symbol_range::{SymbolRange, range_between, symbols_at};
pub use violation::{DisjointViolation, first_violation};
pub use writing::applied_len;
