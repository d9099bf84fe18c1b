//! A list of pages, seen as one list of slots.
ghost use Rattle.std.specs.Prelude.{◌≡◌, ◌<◌, ◌*◌, ◌++◌, [], Some, None, IfOk, OnOk, OnErr, length};
ghost use Rattle.std.specs.Prelude.{slice_set, replicate, MatchOption};
ghost use Rattle.slots.specs.FiniteMap.{entry_at};
ghost use Rattle.slots.specs.Stored.Pages.{joined, AreFullSize};

use crate::page::{PAGE_SLOTS, Page};
use std::alloc::{AllocError, Global};
use std::marker::Model;

/// A list of slots, stored in pages.
#[derive(Drop)]
pub struct Pages<T> {
    alloc: Global,
    pages: Vec<Page<T>>,
}

impl<T> Model for Pages<T> {
    ghost use Rattle.std.specs.Prelude.{List, Option};
    ghost use Rattle.slots.specs.Stored.Pages.{joined, AreFullSize};

    ghost Value = { List (Option T) };

    ghost view = { λ p. joined p.pages.items };

    ghost invariant = { λ p. AreFullSize p.pages.items };
}

impl<T: Drop> Pages<T> {
    /// Creates a list without pages. It does not allocate.
    pub fn new(alloc: Global) -> Self
        ensures { result ≡ [] }
    {
        Pages {
            alloc,
            pages: Vec::new(alloc),
        }
    }

    /// Returns the number of pages.
    pub fn count(&self) -> usize
        ensures { length self.now ≡ PAGE_SLOTS * result }
    {
        self.pages.len()
    }

    /// Appends `count` empty pages. If an allocation fails, the list is unchanged.
    pub fn add(&mut self, count: usize) -> Result<(), AllocError>
        ensures added { OnOk result (self.new ≡ self.old ++ replicate (PAGE_SLOTS * count) None) }
        ensures same { OnErr result (self.new ≡ self.old) }
    {
        let mut more = empty_pages(self.alloc, count)?;
        self.pages.append(&mut more)?;
        Ok(())
    }

    /// Returns the entry at a slot, or `None` if the slot is empty.
    pub fn get(&self, slot: usize) -> Option<&T>
        requires { slot < length self.now }
        ensures { MatchOption result (entry_at self.now slot ≡ None)
            (λ entry. entry_at self.now slot ≡ Some entry.now) }
    {
        let page = &self.pages[slot / PAGE_SLOTS];
        page.get(slot % PAGE_SLOTS)
    }

    /// Puts an entry at a slot, and returns the one that was there, if any. It does not allocate.
    pub fn put(&mut self, slot: usize, entry: T) -> Option<T>
        requires { slot < length self.old }
        ensures put { self.new ≡ slice_set self.old slot (Some entry) }
        ensures before { result ≡ entry_at self.old slot }
    {
        let page = &mut self.pages[slot / PAGE_SLOTS];
        page.put(slot % PAGE_SLOTS, entry)
    }

    /// Removes all pages.
    pub fn clear(&mut self)
        ensures { self.new ≡ [] }
    {
        self.pages.clear();
    }
}

/// Creates `count` empty pages.
fn empty_pages<T: Drop>(alloc: Global, count: usize) -> Result<Vec<Page<T>>, AllocError>
    ensures full_size { IfOk result (λ pages. AreFullSize pages.items) }
    ensures empty { IfOk result (λ pages. joined pages.items ≡ replicate (PAGE_SLOTS * count) None) }
{
    let mut pages = Vec::new(alloc);
    for _page in 0..count {
        let page = Page::new(alloc)?;
        pages.push(page)?;
    }
    Ok(pages)
}
