//! The mentions that the next statement appends to the tables of the `$d`, `$v` and `$f`, which
//! have the statements that mention each symbol.
ghost use Rattle.std.specs.Prelude.{◌≡◌, ℕ, ◌+◌, ◌≤◌, ◌==◌, ◌∷◌, ◌++◌, [], true, false, length};
ghost use Rattle.std.specs.Prelude.{OnOk};
ghost use Rattle.std.specs.List.{list_any};
ghost use Rattle.entries.specs.Entries.{Assertion, entry_by};
ghost use Rattle.entries.specs.Mentions.{mentions_of};
ghost use Rattle.frame.specs.Stored.Counts.{HasTwoSymbolsIfFloat};
ghost use Rattle.frame.specs.Stored.EntryMeanings.{AreFloatsOf};
ghost use Rattle.frame.specs.Stored.MentionLists.{AreGrown, ArePlaced, IsLastActive, IsMentionedAt};
ghost use Rattle.frame.specs.Stored.MentionLists.{IsTableOf};
ghost use Rattle.frame.specs.Stored.Stacks.{KeepsUntil, last_by_kind, opening};

use crate::first_active::{first_active, is_entry_of};
use entries::buffer_part::to_u32;
use entries::{Entries, EntryHeader, Kind, LastActive, Mention, Mentions};
use std::alloc::AllocError;

/// Appends the mention of its variable by the next statement, if it is a `$f`.
///
/// Errors: an allocation fails; the mentions are then the same.
pub fn mention_float(
    floats: &mut Mentions,
    entries: &Entries,
    header: &EntryHeader,
    codes: &[u32],
) -> Result<(), AllocError>
    requires symbols { HasTwoSymbolsIfFloat header.now.kind codes.now }
    requires floats { AreFloatsOf entries.now floats.old }
    ensures floats { OnOk result
        ((a : Assertion) → AreFloatsOf (entries.now ++ entry_by header.now codes.now a ∷ []) floats.new) }
    ensures kept { KeepsUntil (length entries.now) floats.old floats.new }
{
    match header.kind {
        Kind::Float => {
            let mention = Mention {
                position: entries.len() as u32 + 1,
                beneath: 0,
            };
            floats.push(codes[1], mention)
        }
        _ => Ok(()),
    }
}

/// Appends the mentions by the next statement to a table. If it is of the kind of the table, it
/// mentions its symbols. If it is a `$}`, it mentions each symbol of the statements of the table
/// that it makes inactive, unless the last mention leads to what is active after it.
///
/// Errors: an allocation fails; the mentions by earlier statements are then the same. Cost: the
/// symbols of the statements that it adds or makes inactive, and for each a binary search.
#[inline(always)]
pub fn mention_next(
    mentions: &mut Mentions,
    table: Kind,
    entries: &Entries,
    ends: &[u32],
    header: &EntryHeader,
    codes: &[u32],
) -> Result<(), AllocError>
    requires placed { ArePlaced entries.now ends.now }
    requires last_active { IsLastActive entries.now header.now.before.last_active }
    requires table { IsTableOf table entries.now mentions.old }
    ensures table { OnOk result
        ((a : Assertion) → IsTableOf table (entries.now ++ entry_by header.now codes.now a ∷ []) mentions.new) }
    ensures kept { KeepsUntil (length entries.now) mentions.old mentions.new }
{
    if is_entry_of(table, header.kind) {
        return mention_each(mentions, table, entries, ends, codes, entries.len() + 1);
    }
    let last_active = header.before.last_active;
    match header.kind {
        Kind::Close if last_of_kind(last_active, table) > last_active.block => {
            mention_closed(mentions, table, entries, ends, last_active)
        }
        _ => Ok(()),
    }
}

/// Mentions each symbol of the statements of a table that the next statement makes inactive: those
/// in the innermost open block.
fn mention_closed(
    mentions: &mut Mentions,
    table: Kind,
    entries: &Entries,
    ends: &[u32],
    last_active: LastActive,
) -> Result<(), AllocError>
    requires placed { ArePlaced entries.now ends.now }
    requires last_active { IsLastActive entries.now last_active }
    requires grown { AreGrown table entries.now (opening last_active.block) mentions.old }
    ensures grown { AreGrown table entries.now (opening last_active.block) mentions.new }
    ensures kept { KeepsUntil (length entries.now) mentions.old mentions.new }
{
    let from = last_active.block.max(1) as usize;
    let mut last = last_of_kind(last_active, table);
    while last > last_active.block {
        let entry = entries.entry(last as usize - 1);
        mention_each(mentions, table, entries, ends, entry.symbols, from)?;
        last = last_of_kind(entry.before.last_active, table);
    }
    Ok(())
}

/// Mentions each of the symbols by the next statement, as `mention` does.
fn mention_each(
    mentions: &mut Mentions,
    table: Kind,
    entries: &Entries,
    ends: &[u32],
    codes: &[u32],
    from: usize,
) -> Result<(), AllocError>
    requires placed { ArePlaced entries.now ends.now }
    requires place { (1 ≤ from) × (from ≤ length entries.now + 1) }
    requires grown { AreGrown table entries.now from mentions.old }
    ensures grown { AreGrown table entries.now from mentions.new }
    ensures kept { KeepsUntil (length entries.now) mentions.old mentions.new }
    ensures others { (c : ℕ) → list_any (λ x. c == x) codes.now ≡ false
        → mentions_of mentions.new c ≡ mentions_of mentions.old c }
    ensures mentioned { OnOk result
        (from ≡ length entries.now + 1 → (c : ℕ) → list_any (λ x. c == x) codes.now ≡ true
        → IsMentionedAt from (mentions_of mentions.new c)) }
{
    for code in codes {
        mention(mentions, table, entries, ends, *code, from)?;
    }
    Ok(())
}

/// Mentions a symbol by the next statement: above what is active at `from`. If `from` is earlier
/// than the next statement, nothing is appended where the last mention leads there already.
fn mention(
    mentions: &mut Mentions,
    table: Kind,
    entries: &Entries,
    ends: &[u32],
    code: u32,
    from: usize,
) -> Result<(), AllocError>
    requires placed { ArePlaced entries.now ends.now }
    requires place { (1 ≤ from) × (from ≤ length entries.now + 1) }
    requires grown { AreGrown table entries.now from mentions.old }
    ensures grown { AreGrown table entries.now from mentions.new }
    ensures kept { KeepsUntil (length entries.now) mentions.old mentions.new }
    ensures others { (c : ℕ) → (c == code) ≡ false → mentions_of mentions.new c ≡ mentions_of mentions.old c }
    ensures longer { (c : ℕ) → IsMentionedAt (length entries.now + 1) (mentions_of mentions.old c)
        → IsMentionedAt (length entries.now + 1) (mentions_of mentions.new c) }
    ensures mentioned { OnOk result
        (from ≡ length entries.now + 1 → IsMentionedAt from (mentions_of mentions.new code)) }
{
    let position = entries.len() as u32 + 1;
    let beneath = first_active(entries, ends, mentions, table, code, from).count();
    if from <= entries.len() && last_leads_to(mentions, code, beneath) {
        return Ok(());
    }
    let mention = Mention {
        position,
        beneath: to_u32(beneath)?,
    };
    mentions.push(code, mention)
}

/// Returns whether the last mention of a symbol leads to the first `beneath` ones.
fn last_leads_to(mentions: &Mentions, code: u32, beneath: usize) -> bool {
    match mentions.stack(code, usize::MAX).last() {
        Some(last) => last.beneath as usize == beneath,
        None => beneath == 0,
    }
}

/// Returns the position of the last active statement of a kind, or 0.
fn last_of_kind(last_active: LastActive, table: Kind) -> u32
    ensures { result ≡ last_by_kind table last_active }
{
    match table {
        Kind::Disj => last_active.disjoint,
        _ => last_active.variable,
    }
}
