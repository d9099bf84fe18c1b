//! A page: 256 slots, each empty or with an entry.
ghost use Rattle.std.specs.Prelude.{◌≡◌, ◌<◌, ◌≤◌, ◌-◌, ◌++◌, vec_capacity, Some, None, IfOk};
ghost use Rattle.std.specs.Prelude.{length, slice_set, replicate, MatchOption};
ghost use Rattle.slots.specs.FiniteMap.{entry_at};

use std::alloc::{AllocError, Global};
use std::marker::Model;

/// The number of slots of a page.
pub const PAGE_SLOTS: usize = 256;

/// A page of slots. Its vector has capacity for all of them, but ends at the greatest slot with an
/// entry.
#[derive(Drop)]
pub struct Page<T> {
    slots: Vec<Option<T>>,
}

impl<T> Model for Page<T> {
    ghost use Rattle.std.specs.Prelude.{List, Option, vec_capacity};
    ghost use Rattle.slots.specs.Stored.Pages.{padded, IsStoredPage};

    ghost Value = { List (Option T) };

    ghost view = { λ p. padded p.slots.items };

    ghost invariant = { λ p. IsStoredPage p.slots.items (vec_capacity p.slots) };
}

impl<T: Drop> Page<T> {
    /// Creates an empty page.
    pub fn new(alloc: Global) -> Result<Self, AllocError>
        ensures { IfOk result (λ page. page ≡ replicate PAGE_SLOTS None) }
    {
        let slots = Vec::with_capacity(alloc, PAGE_SLOTS)?;
        Ok(Page { slots })
    }

    /// Returns the entry at a slot of the page, or `None` if the slot is empty.
    pub fn get(&self, slot: usize) -> Option<&T>
        requires { slot < PAGE_SLOTS }
        ensures { MatchOption result (entry_at self.now slot ≡ None)
            (λ entry. entry_at self.now slot ≡ Some entry.now) }
    {
        match self.slots.get(slot) {
            Some(entry) => entry.as_ref(),
            None => None,
        }
    }

    /// Puts an entry at a slot of the page, and returns the one that was there, if any. It does not
    /// allocate.
    pub fn put(&mut self, slot: usize, entry: T) -> Option<T>
        requires { slot < PAGE_SLOTS }
        ensures put { self.new ≡ slice_set self.old slot (Some entry) }
        ensures before { result ≡ entry_at self.old slot }
    {
        pad_to(&mut self.slots, slot + 1);
        self.slots[slot].replace(entry)
    }
}

/// Appends empty slots until there are at least `count`. It does not allocate.
fn pad_to<T: Drop>(slots: &mut Vec<Option<T>>, count: usize)
    requires { count ≤ vec_capacity slots.old }
    ensures items { slots.new.items ≡ slots.old.items ++ replicate (count - length slots.old.items) None }
    ensures capacity { vec_capacity slots.new ≡ vec_capacity slots.old }
{
    while slots.len() < count {
        slots.push_reserved(None);
    }
}
