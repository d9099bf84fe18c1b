//! The finite map from slots to entries.
ghost use Rattle.std.specs.Prelude.{◌≡◌, ◌<◌, ◌≤◌, ◌+◌, ◌↔◌, [], drop, max, IsTrue, IsOk, OnOk};
ghost use Rattle.std.specs.Prelude.{OnErr, Some, None, count_by, is_some, length, MatchOption};
ghost use Rattle.slots.specs.FiniteMap.{added_to, entry_at, put_at, front_of, top_of};

use crate::page::PAGE_SLOTS;
use crate::pages::Pages;
use std::alloc::{AllocError, Global};
use std::marker::Model;

/// The number of slots of a log. The slots are numbered from 0 to `SLOTS - 1`.
pub const SLOTS: u32 = 1_048_576;

/// A finite map from slots to entries, kept in pages of 256 slots.
#[derive(Drop)]
pub struct Slots<T> {
    pages: Pages<T>,
    /// The least empty slot, or `SLOTS` if there is none.
    front: u32,
    /// One above the greatest slot with an entry, or 0 if there are no entries.
    top: u32,
    /// How many slots have an entry.
    count: u32,
}

impl<T> Model for Slots<T> {
    ghost use Rattle.std.specs.Prelude.{length};
    ghost use Rattle.slots.specs.FiniteMap.{SlotsView, trimmed};
    ghost use Rattle.slots.specs.Stored.Pages.{AreSlots};

    ghost Value = { SlotsView T };

    ghost view = { λ s. record { entries = trimmed s.pages; capacity = length s.pages } };

    ghost invariant = { λ s. AreSlots s.pages s.front s.top s.count };
}

impl<T: Drop> Slots<T> {
    /// Creates an empty map. It does not allocate.
    pub fn new(alloc: Global) -> Self
        ensures entries { result.entries ≡ [] }
        ensures capacity { result.capacity ≡ 0 }
    {
        Slots {
            pages: Pages::new(alloc),
            front: 0,
            top: 0,
            count: 0,
        }
    }

    /// Makes room: reserves capacity for a slot and for all slots below it. The entries do not
    /// change.
    ///
    /// Errors: an allocation fails; the capacity is then unchanged too. Cost: the pages that it
    /// adds.
    pub fn room(&mut self, slot: u32) -> Result<(), AllocError>
        requires { slot < SLOTS }
        ensures ok { OnOk result (slot < self.new.capacity) }
        ensures reserved { slot < self.old.capacity → IsOk result }
        ensures entries { self.new.entries ≡ self.old.entries }
        ensures capacity { self.old.capacity ≤ self.new.capacity }
        ensures same { OnErr result (self.new ≡ self.old) }
    {
        let page_count = slot as usize / PAGE_SLOTS + 1;
        let old_count = self.pages.count();
        if old_count >= page_count {
            return Ok(());
        }
        self.pages.add(page_count - old_count)?;
        Ok(())
    }

    /// Returns whether there is room (capacity) for a slot, so that `put` can be called with it.
    pub fn has_room(&self, slot: u32) -> bool
        ensures { IsTrue result ↔ (slot < self.now.capacity) }
    {
        (slot as usize) < self.pages.count() * PAGE_SLOTS
    }

    /// Puts an entry at a slot, and returns the one that was there, if any. It does not allocate.
    ///
    /// Cost: amortized constant. A put at the front scans from there to the next empty slot; until
    /// `clear`, each entry is scanned once.
    pub fn put(&mut self, slot: u32, entry: T) -> Option<T>
        requires { slot < self.old.capacity }
        ensures entries { self.new.entries ≡ put_at self.old.entries slot entry }
        ensures capacity { self.new.capacity ≡ self.old.capacity }
        ensures within { top_of self.new.entries ≤ SLOTS }
        ensures before { result ≡ entry_at self.old.entries slot }
    {
        let before = self.pages.put(slot as usize, entry);
        self.front = first_empty_from(&self.pages, self.front);
        self.top = top_with(self.top, slot);
        self.count = count_with(self.count, &before);
        before
    }

    /// Returns the entry at a slot, or `None` if the slot is empty.
    pub fn get(&self, slot: u32) -> Option<&T>
        ensures { MatchOption result (entry_at self.now.entries slot ≡ None)
            (λ entry. entry_at self.now.entries slot ≡ Some entry.now) }
    {
        if self.has_room(slot) {
            self.pages.get(slot as usize)
        } else {
            None
        }
    }

    /// Returns the front of the map: the least empty slot, or `SLOTS` if there is none.
    pub fn front(&self) -> u32
        ensures front { result ≡ front_of self.now.entries }
        ensures within { result ≤ SLOTS }
    {
        self.front
    }

    /// Returns the front that the map would have with an entry at `slot`.
    ///
    /// Cost: constant, unless `slot` is the front: then the number of entries from there to the
    /// next empty slot.
    pub fn front_with(&self, slot: u32) -> u32
        requires { slot < SLOTS }
        ensures front { (entry : T) → front_of (put_at self.now.entries slot entry) ≡ result }
        ensures within { result ≤ SLOTS }
    {
        if slot != self.front {
            return self.front;
        }
        if self.has_room(slot) {
            first_empty_from(&self.pages, slot + 1)
        } else {
            slot + 1
        }
    }

    /// Returns the top of the map: one above the greatest slot with an entry, or 0 if there are no
    /// entries.
    pub fn top(&self) -> u32
        ensures top { result ≡ top_of self.now.entries }
        ensures within { result ≤ SLOTS }
    {
        self.top
    }

    /// Returns how many slots have an entry.
    pub fn count(&self) -> u32
        ensures { result ≡ count_by is_some self.now.entries }
    {
        self.count
    }

    /// Removes all entries.
    pub fn clear(&mut self)
        ensures entries { self.new.entries ≡ [] }
    {
        self.pages.clear();
        self.front = 0;
        self.top = 0;
        self.count = 0;
    }
}

/// Returns the first empty slot from `from` on, or the number of slots of all pages if there is
/// none.
fn first_empty_from<T: Drop>(pages: &Pages<T>, from: u32) -> u32
    requires pages { length pages.now ≤ SLOTS }
    requires from { from ≤ length pages.now }
    ensures { result ≡ from + front_of (drop from pages.now) }
{
    let end = (pages.count() * PAGE_SLOTS) as u32;
    let mut slot = from;
    while slot < end && pages.get(slot as usize).is_some() {
        slot += 1;
    }
    slot
}

/// Returns the `top` of the map after an entry is put at `slot`.
fn top_with(top: u32, slot: u32) -> u32
    requires { slot < SLOTS }
    ensures { result ≡ max top (slot + 1) }
{
    if top <= slot { slot + 1 } else { top }
}

/// Returns the number of entries after one is put where `before` was.
fn count_with<T>(count: u32, before: &Option<T>) -> u32
    requires { count ≤ SLOTS }
    ensures { result ≡ count + added_to before.now }
{
    if before.is_none() { count + 1 } else { count }
}
