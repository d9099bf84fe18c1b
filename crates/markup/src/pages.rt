//! The pages of the index of a database.
ghost use Rattle.std.specs.Prelude.{◌≡◌, ◌+◌, ◌++◌, ◌∷◌, [], map, length, IfOk, OnOk};
ghost use Rattle.markup.specs.IndexItems.{item_view};
ghost use Rattle.markup.specs.Pages.{file_of, files_of_family, index_file_of, index_files};
ghost use Rattle.markup.specs.Pages.{list_family, part_files};

use crate::family::{Family, push_index_file};
use crate::index_draft::{IndexDraft, IndexSources, draft_of};
use crate::page::push_page;
use crate::paged_rows::next_number;
use std::alloc::{AllocError, Global};

/// A page of an index: the name of its file, and its bytes.
#[derive(Drop)]
pub struct IndexPage {
    pub name: Vec<u8>,
    pub bytes: Vec<u8>,
}

/// Returns the pages of the index: the list of statements, and if the database has headings the
/// list of its parts. A page has at most 300,000 bytes, unless one row alone has 299,000.
///
/// Errors: an allocation fails. Cost: the size of the pages.
#[tactic(auto, using(crate::proofs::PageLemmas::pages_are))]
pub fn index_pages(alloc: Global, sources: &IndexSources<'_>) -> Result<Vec<IndexPage>, AllocError>
    ensures { IfOk result (λ pages. map file_of pages.items ≡ index_files sources.now.statements.now
        sources.now.is_unproved.now (map item_view sources.now.items.now)) }
{
    let IndexDraft {
        alloc: _alloc,
        rows,
        parts,
        headings,
    } = draft_of(alloc, sources)?;
    let list_rows = rows.into_pages()?;
    let part_rows = parts.into_pages()?;
    let mut pages = Vec::new(alloc);
    push_family(
        alloc,
        &mut pages,
        list_family(headings),
        list_rows.as_slice(),
    )?;
    push_parts(alloc, &mut pages, headings, part_rows.as_slice())?;
    Ok(pages)
}

/// Appends the pages of the list of parts, if there are headings.
fn push_parts(
    alloc: Global,
    pages: &mut Vec<IndexPage>,
    headings: usize,
    rows: &[Vec<u8>],
) -> Result<(), AllocError>
    ensures { OnOk result (map file_of pages.new.items ≡ map file_of pages.old.items
        ++ part_files headings (map (λ v. v.items) rows.now)) }
{
    if headings > 0 {
        push_family(alloc, pages, Family::Parts, rows)
    } else {
        Ok(())
    }
}

/// Returns the family of the list of statements of a database with so many headings.
fn list_family(headings: usize) -> Family
    ensures { result ≡ list_family headings }
{
    if headings == 0 {
        Family::OnlyList
    } else {
        Family::Listed
    }
}

/// Appends the pages of a family, which have these rows.
#[tactic(auto, using(crate::proofs::PageLemmas::family_end))]
fn push_family(
    alloc: Global,
    pages: &mut Vec<IndexPage>,
    family: Family,
    rows: &[Vec<u8>],
) -> Result<(), AllocError>
    ensures { OnOk result (map file_of pages.new.items ≡ map file_of pages.old.items
        ++ files_of_family family (map (λ v. v.items) rows.now)) }
{
    let count = rows.len();
    let mut number = 1;
    let mut rest = rows;
    while let Some((page_rows, others)) = rest.split_first() {
        push_index_page(alloc, pages, family, number, count, page_rows.as_slice())?;
        number = next_number(number)?;
        rest = others;
    }
    Ok(())
}

/// Appends the page with this number, from 1, of `count` pages.
#[tactic(auto, using(crate::proofs::PageLemmas::file_more))]
fn push_index_page(
    alloc: Global,
    pages: &mut Vec<IndexPage>,
    family: Family,
    number: usize,
    count: usize,
    rows: &[u8],
) -> Result<(), AllocError>
    ensures { OnOk result (map file_of pages.new.items ≡ map file_of pages.old.items
        ++ index_file_of family number count rows.now ∷ []) }
{
    let mut name = Vec::new(alloc);
    push_index_file(&mut name, family, number)?;
    let mut bytes = Vec::new(alloc);
    push_page(&mut bytes, family, number, count, rows)?;
    pages.push(IndexPage { name, bytes })?;
    Ok(())
}
