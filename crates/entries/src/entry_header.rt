//! The kind and the size of a statement and the state before it.
use crate::kind::Kind;
use crate::last_active::LastActive;

/// The state before a statement.
#[derive(Clone, Copy, Drop)]
pub struct StateBefore {
    /// How many labels there were. This is the number of the statement's own label, if it has one.
    pub label_count: u32,
    /// How many declared symbols there were.
    pub symbol_count: u32,
    /// The last active statement of each of four kinds.
    pub last_active: LastActive,
}

/// A statement's kind, its size, and the state before it, as `Entries::push` takes them.
#[derive(Clone, Copy, Drop)]
pub struct EntryHeader {
    pub kind: Kind,
    /// The size that `frame` gives to an assertion; 0 for another statement.
    pub size: u64,
    pub before: StateBefore,
}

/// A stored statement without its parts, as `Entries::entry` returns it: its kind, its size, the
/// state before it, and the numbers of its symbols.
#[derive(Clone, Copy, Drop)]
pub struct EntryRef<'a> {
    pub kind: Kind,
    pub size: u64,
    pub before: StateBefore,
    pub symbols: &'a [u32],
}
