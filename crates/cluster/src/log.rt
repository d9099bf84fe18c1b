//! Tests whether entries are a prefix of a node's log.
ghost use Rattle.std.specs.Prelude.{◌≡◌, ◌↔◌, ◌≤◌, ◌<◌, Some, length, slice_get, option_map};
ghost use Rattle.std.specs.Prelude.{IsTrue, IsOk};
ghost use Rattle.slots.specs.declared.slots.TheConstants.{SLOTS};
ghost use Rattle.net.specs.World.{log_after};
ghost use Rattle.switch.specs.Switch.{world_of};
ghost use Rattle.switch.specs.LogPrefixes.{IsLogPrefix};
ghost use Rattle.world.specs.Carried.{carried_size};

use library::{Entry, Submission};
use switch::Switch;
use synod::Keep;
use world::Carried;

/// Returns whether there is a node `k` and the entries are a prefix of its log.
///
/// Cost: the size of the entries, each compared with one of the log.
pub(crate) fn is_log_prefix<K: Keep<Carried>>(
    switch: &Switch<Carried, K>,
    k: u8,
    entries: &[Option<Carried>],
) -> bool
    requires { length entries.now ≤ SLOTS }
    ensures begins { IsTrue result ↔ IsLogPrefix carried_size switch.now k entries.now }
    ensures history_taken { IsOk (world_of carried_size switch.now) }
{
    if switch.entry(k, 0).is_err() {
        return false;
    }
    for slot in 0..entries.len() {
        if !has_entry(switch, k, slot as u32, &entries[slot]) {
            return false;
        }
    }
    true
}

/// Returns whether the log of node `k` has this entry at a slot.
fn has_entry<K: Keep<Carried>>(
    switch: &Switch<Carried, K>,
    k: u8,
    slot: u32,
    entry: &Option<Carried>,
) -> bool
    requires { k < length switch.now.stores }
    ensures { IsTrue result ↔ (slice_get (log_after (world_of carried_size switch.now) k) slot ≡ Some entry.now) }
{
    match switch.entry(k, slot) {
        Ok(found) => is_equal_value(found, entry),
        Err(_) => false,
    }
}

/// Returns whether `found` is there and equal to `entry`: both are a no-operation, or both are the
/// same entry. (`found.entry` in the clause is the parameter `found` as the call begins.)
fn is_equal_value(found: Option<&Option<Carried>>, entry: &Option<Carried>) -> bool
    ensures { IsTrue result ↔ (option_map (λ e. e.now) found.entry ≡ Some entry.now) }
{
    match (found, entry) {
        (Some(Some(Carried(one))), Some(Carried(other))) => is_same_entry(one, other),
        (Some(None), None) => true,
        _ => false,
    }
}

/// Returns whether two entries are the same: two texts, or two charters, of the same author and
/// serial number, with the same bytes or names. It does not allocate.
pub(crate) fn is_same_entry(one: &Entry, other: &Entry) -> bool
    ensures { IsTrue result ↔ (one.now ≡ other.now) }
{
    match (one, other) {
        (Entry::Text(one), Entry::Text(other)) => is_same_text(one, other),
        (
            Entry::Charter {
                author,
                serial,
                names,
            },
            Entry::Charter {
                author: other_author,
                serial: other_serial,
                names: other_names,
            },
        ) => *author == *other_author
            && *serial == *other_serial
            && names.as_slice() == other_names.as_slice(),
        _ => false,
    }
}

/// Returns whether two texts are the same.
fn is_same_text(one: &Submission, other: &Submission) -> bool
    ensures { IsTrue result ↔ (one.now ≡ other.now) }
{
    one.author == other.author
        && one.serial == other.serial
        && one.text.as_slice() == other.text.as_slice()
}
