//! Finds what is active at a position.
ghost use Rattle.std.specs.Prelude.{◌≡◌, ◌+◌, ◌-◌, ◌<◌, ◌≤◌, length, take, slice_get};
ghost use Rattle.scope.specs.Active.{is_active};
ghost use Rattle.frame.specs.LastActive.{last_active_of};
ghost use Rattle.frame.specs.Stored.Whole.{AreStored};
ghost use Rattle.frame.specs.Stored.EntryMeanings.{statements_of};
ghost use Rattle.frame.specs.Stored.Counts.{IsPlain};
ghost use Rattle.frame.specs.Stored.Ends.{is_open_at};

use crate::storage::Storage;
use entries::LastActive;

/// Returns, of each kind, the last statement that is active at `at`. `at` may be one past the last
/// statement.
pub fn last_active_at(storage: &Storage, at: usize) -> LastActive
    requires stored { AreStored storage.now }
    requires place { (1 ≤ at) × (at ≤ length (statements_of storage.now) + 1) }
    ensures { result ≡ last_active_of (take (at - 1) (statements_of storage.now)) }
{
    if at <= storage.entries.len() {
        storage.entries.entry(at - 1).before.last_active
    } else {
        storage.last_active
    }
}

/// Returns whether the statement at `i`, which is neither `${` nor `$}`, is active at `at`.
///
/// Cost: two look-ups.
pub fn is_active_at(storage: &Storage, i: usize, at: usize) -> bool
    requires stored { AreStored storage.now }
    requires place { (1 ≤ i) × (i < at) × (at ≤ length (statements_of storage.now) + 1) }
    requires plain { IsPlain (slice_get (statements_of storage.now) (i - 1)) }
    ensures { result ≡ is_active (statements_of storage.now) i at }
{
    let block = last_active_at(storage, i).block;
    is_open_at(&storage.ends, block, at)
}

/// Returns whether the block that opened at the position `block` is still open at `at`. What is
/// outside all blocks, at 0, stays.
pub fn is_open_at(ends: &[u32], block: u32, at: usize) -> bool
    requires { block ≤ length ends.now }
    ensures { result ≡ is_open_at ends.now block at }
{
    if block == 0 {
        return true;
    }
    let end = ends[block as usize - 1] as usize;
    end == 0 || at <= end
}
