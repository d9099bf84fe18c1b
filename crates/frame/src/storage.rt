//! The statements of a database as numbers.
use entries::{Entries, LastActive, Mentions};
use scope::Numbering;

/// The statements of a database, with all that is looked up about them: the symbols and labels by
/// number, the position of each label, where blocks end, and what is active at each position.
#[derive(Drop)]
pub struct Storage {
    /// The names of symbols and labels, by number.
    pub numbering: Numbering,
    /// For each label, by its number, the position of its statement.
    pub positions: Vec<u32>,
    /// For each `${` the position of its `$}`, or 0 while its block is open; for another statement
    /// 0.
    pub ends: Vec<u32>,
    /// The statements.
    pub entries: Entries,
    /// For each symbol, by its number, the `$f` whose variable it is.
    pub floats: Mentions,
    /// For each symbol, by its number, the `$d` that have it, and what each `$}` leaves of them.
    pub disjoints: Mentions,
    /// For each symbol, by its number, the `$v` that have it, and what each `$}` leaves of them.
    pub variables: Mentions,
    /// The last active statement of each kind after all statements.
    pub last_active: LastActive,
}
