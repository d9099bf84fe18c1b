//! The statements of a database as numbers, by position.
//!
//! Contracts see `Entries` as a list of statements, each with its parts as plain lists; inside, a
//! few buffers hold the parts of all. The crate `frame` says which names the numbers denote.
//! `Mentions` has, for each number, the statements that mention it.
//!
//! Reading order: `kind`, `last_active`, `entry_header`, `buffer_part`, `groups`, `assertion_view`,
//! `parts`; `layout`, `statement_record`, `entries`; `mentions`; `room`.
#![tactic(auto)]

mod assertion_view;
pub mod buffer_part;
mod entries;
mod entry_header;
mod groups;
mod kind;
mod last_active;
mod layout;
mod mentions;
mod parts;
mod room;
mod statement_record;

pub use assertion_view::{AssertionView, Hypotheses, Hypothesis, NO_TYPECODE, number_of};
pub use buffer_part::BufferPart;
pub use entries::Entries;
pub use entry_header::{EntryHeader, EntryRef, StateBefore};
pub use groups::Groups;
pub use kind::Kind;
pub use last_active::LastActive;
pub use mentions::{Mention, MentionStack, Mentions};
pub use parts::AssertionParts;
pub use room::give_back;
