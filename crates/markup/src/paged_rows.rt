//! Rows that are divided into pages.
ghost use Rattle.std.specs.Prelude.{◌≡◌, ◌+◌, length, map, IfOk, OnOk};
ghost use Rattle.markup.specs.PagedRows.{all_pages, appended, begun, fits, nothing, paged_of};
ghost use Rattle.markup.specs.PagedRows.{with_row};

use std::alloc::{AllocError, Global};
use std::mem::replace;

/// The most bytes that the rows of a page have, if they are more than one: the page then has at
/// most 300,000 bytes.
const MAX_ROWS: usize = 299_000;

/// Rows that are divided into pages.
#[derive(Drop)]
pub(crate) struct PagedRows {
    alloc: Global,
    /// The rows of each page but the last.
    pub full: Vec<Vec<u8>>,
    /// The rows of the last page.
    pub last: Vec<u8>,
}

impl PagedRows {
    /// Returns one page without rows. Does not allocate.
    pub fn new(alloc: Global) -> PagedRows
        ensures { paged_of result ≡ nothing }
    {
        PagedRows {
            alloc,
            full: Vec::new(alloc),
            last: Vec::new(alloc),
        }
    }

    /// Appends a row to the last page, or begins a new page with it if the last page has no room.
    ///
    /// Errors: an allocation fails; the rows are then unspecified. Cost: amortized, its length.
    pub fn push(&mut self, row: &[u8]) -> Result<(), AllocError>
        ensures { OnOk result (paged_of self.new ≡ with_row (paged_of self.old) row.now) }
    {
        if fits(self.last.len(), row.len()) {
            self.append(row)
        } else {
            self.begin_page()?;
            self.append(row)
        }
    }

    /// Appends a row to the last page.
    fn append(&mut self, row: &[u8]) -> Result<(), AllocError>
        ensures { OnOk result (paged_of self.new ≡ appended (paged_of self.old) row.now) }
    {
        self.last.extend_from_slice(row)
    }

    /// Begins a new page without rows.
    #[tactic(auto, using(crate::proofs::PageLemmas::full_more))]
    fn begin_page(&mut self) -> Result<(), AllocError>
        ensures { OnOk result (paged_of self.new ≡ begun (paged_of self.old)) }
    {
        let last = replace(&mut self.last, Vec::new(self.alloc));
        self.full.push(last)?;
        Ok(())
    }

    /// Returns the number of the last page, from 1.
    #[tactic(auto, using(crate::proofs::PageLemmas::full_count))]
    pub fn last_number(&self) -> Result<usize, AllocError>
        ensures { IfOk result (λ number. number ≡ length (paged_of self.now).full + 1) }
    {
        next_number(self.full.len())
    }

    /// Returns the rows of each page.
    #[tactic(auto, using(crate::proofs::PageLemmas::full_more))]
    pub fn into_pages(self) -> Result<Vec<Vec<u8>>, AllocError>
        ensures { IfOk result (λ pages. map (λ v. v.items) pages.items ≡ all_pages (paged_of self)) }
    {
        let PagedRows {
            alloc: _alloc,
            mut full,
            last,
        } = self;
        full.push(last)?;
        Ok(full)
    }
}

/// Returns the next number.
pub(crate) fn next_number(number: usize) -> Result<usize, AllocError>
    ensures { IfOk result (λ next. next ≡ number + 1) }
{
    number.checked_add(1).ok_or(AllocError)
}

/// Returns whether `more` bytes of a row still fit into a page with `bytes` bytes of rows: an empty
/// page takes any row.
fn fits(bytes: usize, more: usize) -> bool
    ensures { result ≡ fits bytes more }
{
    bytes == 0 || bytes <= MAX_ROWS && more <= MAX_ROWS - bytes
}
