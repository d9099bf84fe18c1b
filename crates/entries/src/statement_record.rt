//! The record by which a stored statement is found.
use crate::entry_header::StateBefore;
use crate::kind::Kind;

/// The record of a statement, which is read first: its kind, where its numbers and its groups begin
/// in the buffers of all statements, and the state before it. Numbers and groups end where those of
/// the next statement begin.
#[derive(Clone, Copy, Drop)]
pub struct StatementRecord {
    /// Where its numbers begin: how many numbers earlier statements have.
    pub from: u32,
    pub kind: Kind,
    /// Whether its numbers are those of an assertion with its parts; else they are its symbols
    /// alone.
    pub has_parts: bool,
    /// Whether its parts are whole, as `AssertionParts` says.
    pub whole: bool,
    /// Where its groups begin: how many groups earlier statements have.
    pub groups_from: u32,
    /// The state before it.
    pub before: StateBefore,
}
