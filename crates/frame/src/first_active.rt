//! Goes from the last mention of a symbol before a position down to the first one that is active
//! there.
ghost use Rattle.std.specs.Prelude.{◌≡◌, ◌+◌, ◌<◌, ◌≤◌, ℕ, [], length, take, true};
ghost use Rattle.entries.specs.Mentions.{IsLast, mentions_of, positions_of};
ghost use Rattle.entries.specs.declared.mentions.Mention.{Mention as Mentioned};
ghost use Rattle.frame.specs.Stored.EntryMeanings.{shapes_of};
ghost use Rattle.frame.specs.Stored.MentionLists.{ArePlaced, IsListOf, active_with, is_entry_of};
ghost use Rattle.frame.specs.Stored.MentionLists.{stands};
ghost use Rattle.frame.specs.Stored.Stacks.{kind_test};

use crate::at_position::is_open_at;
use entries::{Entries, Kind, MentionStack, Mentions};

/// Returns whether a statement of a kind is of the kind of a table: of `$d`, or of `$v`.
pub fn is_entry_of(table: Kind, kind: Kind) -> bool
    ensures { result ≡ is_entry_of table kind }
{
    match table {
        Kind::Disj => matches!(kind, Kind::Disj),
        _ => matches!(kind, Kind::Var),
    }
}

/// Returns whether the statement at a position is of the kind of a table and active at `at`.
///
/// Cost: two look-ups.
fn stands(entries: &Entries, ends: &[u32], table: Kind, position: u32, at: usize) -> bool
    requires placed { ArePlaced entries.now ends.now }
    requires place { (1 ≤ position) × (position < at) × (at ≤ length entries.now + 1) }
    ensures { result ≡ stands table (shapes_of entries.now) position at }
{
    let entry = entries.entry(position as usize - 1);
    if !is_entry_of(table, entry.kind) {
        return false;
    }
    is_open_at(ends, entry.before.last_active.block, at)
}

/// Returns whether there are no mentions left, or the statement of the last one is of the kind of a
/// table and active at `at`.
fn is_found(
    entries: &Entries,
    ends: &[u32],
    table: Kind,
    stack: &MentionStack<'_>,
    at: usize,
) -> bool
    requires placed { ArePlaced entries.now ends.now }
    requires place { (m : Mentioned) → IsLast stack.now m → (1 ≤ m.position) × (m.position < at)
        × (at ≤ length entries.now + 1) }
    ensures none { stack.now ≡ [] → result ≡ true }
    ensures last { (m : Mentioned) → IsLast stack.now m → result ≡ stands table (shapes_of entries.now) m.position at }
{
    match stack.last() {
        Some(mention) => stands(entries, ends, table, mention.position, at),
        None => true,
    }
}

/// Returns the mentions of a symbol from the first one down that is active at `at`.
///
/// Cost: a binary search, and the mentions that are passed over.
pub fn first_active<'a>(
    entries: &Entries,
    ends: &[u32],
    mentions: &'a Mentions,
    table: Kind,
    code: u32,
    at: usize,
) -> MentionStack<'a>
    requires placed { ArePlaced entries.now ends.now }
    requires list { IsListOf (kind_test table) entries.now (shapes_of entries.now) code
        (mentions_of mentions.now code) }
    requires place { (1 ≤ at) × (at ≤ length entries.now + 1) }
    ensures active { positions_of result ≡ active_with table entries.now code at }
    ensures front { (n : ℕ) × (result ≡ take n (mentions_of mentions.now code)) }
{
    let mut stack = mentions.stack(code, at);
    while !is_found(entries, ends, table, &stack, at) {
        let _passed = stack.pop();
    }
    stack
}
