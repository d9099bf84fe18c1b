//! Writes the files of a site.
ghost use Rattle.std.specs.Prelude.{◌≡◌, ℕ, ◌+◌, ◌<◌, length, get_or, is_some, option_map, map, OnOk};
ghost use Rattle.markup.specs.IndexItems.{items_of};
ghost use Rattle.markup.specs.Pages.{file_of, index_files};
ghost use Rattle.mm_read.specs.declared.stmt.Stmt.TheVariants.{Open};
ghost use Rattle.scope.specs.Active.{is_assertion};
ghost use Rattle.sites.specs.AssertionPages.{ArePageSources, IsPage, IsPageOf, database_of};
ghost use Rattle.sites.specs.SiteFiles.{WritesFiles, WritesPages, WritesSite};
ghost use Rattle.sites.specs.SiteFiles.{page_file, page_file_of_label, page_files};

use crate::assertion_page::{PageSources, page_at};
use crate::progress::print_progress;
use crate::{Folder, FolderFault, cross_references};
use library::{AskFault, Library};
use markup::{IndexPage, IndexSources, index_items, index_pages};
use mm_lex::Word;
use mm_read::Stmt;
use places::descriptions;
use proof_pages::{Typecodes, WriteFault, style_sheet};
use std::alloc::{AllocError, Global};
use std::io::Write;
use std::str::from_utf8;
use text::{STYLE_FILE, push_file_name};

/// The sources of a site: a library, and the text that it was read from.
#[derive(Drop)]
pub struct SiteSources<'a> {
    /// The text. The description of an assertion is the last comment between the statement before
    /// it and its first token. No clause requires that the text reads as the library's statements.
    pub text: &'a [u8],
    pub library: &'a Library,
    /// For each statement whether it is a theorem that is not proved and was taken as a `$a`; a
    /// statement without a mark is none.
    pub is_unproved: &'a [bool],
}

/// The reason that a site is not written completely.
#[derive(Debug, Drop, PartialEq, Eq)]
pub enum SiteFault {
    /// An allocation failed.
    Memory,
    /// The folder cannot be opened.
    Folder,
    /// The file with this name cannot be written.
    File(Vec<u8>),
    /// A file that a run left unfinished when it was ended is in the way.
    Unfinished,
}

impl From<AllocError> for SiteFault {
    fn from(_error: AllocError) -> SiteFault {
        SiteFault::Memory
    }
}

/// Pages are written into a `Vec`, where a write fails only if an allocation fails.
impl From<WriteFault> for SiteFault {
    fn from(_fault: WriteFault) -> SiteFault {
        SiteFault::Memory
    }
}

/// Only labels of `$p` of the library are asked for, so an allocation failed.
impl From<AskFault> for SiteFault {
    fn from(_fault: AskFault) -> SiteFault {
        SiteFault::Memory
    }
}

/// Writes the style sheet, a page for each assertion and an index of them into the folder at a
/// path. If there are 5,000 pages or more, lines that say how many are written go to `progress`.
///
/// Errors: `Memory`, `Folder` or `File`; the files before the error are written. Cost: that of
/// `cross_references`, of each proof's steps, the size of the text, and the bytes written; one page
/// is in memory at a time.
pub fn write_site<F: Write, S: Folder>(
    alloc: Global,
    site: &SiteSources<'_>,
    path: &str,
    folder: &mut S,
    progress: &mut F,
) -> Result<(), SiteFault>
    ensures { OnOk result (WritesSite S.writes site.now.library.now.replica.statements
        site.now.is_unproved.now site.now.text.now folder.new) }
{
    open_folder(path, folder)?;
    write_file(alloc, folder, STYLE_FILE.as_bytes(), style_sheet())?;
    write_pages(alloc, site, folder, progress)?;
    write_index_pages(alloc, site, folder)
}

/// Opens the folder at a path.
fn open_folder<S: Folder>(path: &str, folder: &mut S) -> Result<(), SiteFault> {
    match folder.open(path) {
        Ok(()) => Ok(()),
        Err(FolderFault::Memory) => Err(SiteFault::Memory),
        Err(FolderFault::Refused) => Err(SiteFault::Folder),
        Err(FolderFault::Unfinished) => Err(SiteFault::Unfinished),
    }
}

/// Writes the pages of the index.
fn write_index_pages<S: Folder>(
    alloc: Global,
    site: &SiteSources<'_>,
    folder: &mut S,
) -> Result<(), SiteFault>
    ensures { OnOk result (WritesFiles S.writes folder.old
        (index_files site.now.library.now.replica.statements site.now.is_unproved.now (items_of site.now.text.now))
        folder.new) }
{
    let items = index_items(alloc, site.text)?;
    let sources = IndexSources {
        statements: site.library.statements(),
        is_unproved: site.is_unproved,
        items: items.as_slice(),
    };
    let pages = index_pages(alloc, &sources)?;
    write_files(alloc, pages.as_slice(), folder)
}

/// Writes the files of pages.
#[tactic(auto, using(crate::proofs::SiteLemmas::files_on))]
fn write_files<S: Folder>(
    alloc: Global,
    pages: &[IndexPage],
    folder: &mut S,
) -> Result<(), SiteFault>
    ensures { OnOk result (WritesFiles S.writes folder.old (map file_of pages.now) folder.new) }
{
    let mut rest = pages;
    while let Some((page, others)) = rest.split_first() {
        write_file(alloc, folder, page.name.as_slice(), page.bytes.as_slice())?;
        rest = others;
    }
    Ok(())
}

/// Writes a file into the folder.
fn write_file<S: Folder>(
    alloc: Global,
    folder: &mut S,
    name: &[u8],
    bytes: &[u8],
) -> Result<(), SiteFault>
    ensures { OnOk result (S.writes folder.old name.now bytes.now folder.new) }
{
    let Ok(text) = from_utf8(name) else {
        return Err(SiteFault::File(Vec::from_slice(alloc, name)?));
    };
    match folder.write(text, bytes) {
        Ok(()) => Ok(()),
        Err(FolderFault::Memory) => Err(SiteFault::Memory),
        Err(FolderFault::Refused) => Err(SiteFault::File(Vec::from_slice(alloc, name)?)),
        Err(FolderFault::Unfinished) => Err(SiteFault::Unfinished),
    }
}

/// Writes a page for each assertion.
fn write_pages<F: Write, S: Folder>(
    alloc: Global,
    site: &SiteSources<'_>,
    folder: &mut S,
    progress: &mut F,
) -> Result<(), SiteFault>
    ensures { OnOk result (WritesPages S.writes
        (IsPage site.now.library.now.replica.statements site.now.is_unproved.now site.now.text.now)
        folder.old (page_files 1 site.now.library.now.replica.statements) folder.new) }
{
    let statements = site.library.statements();
    let frames = site.library.frames();
    let references = cross_references(alloc, site.library)?;
    let typecodes = Typecodes::of(alloc, statements, frames)?;
    let spans = descriptions(alloc, site.text)?;
    let sources = PageSources {
        site,
        frames,
        references,
        typecodes,
        descriptions: spans,
    };
    let total = count_of_assertions(statements);
    let mut written = 0u64;
    for index in 0..statements.len() {
        if write_page(alloc, &sources, index, folder)? {
            written = written.saturating_add(1);
            print_progress(alloc, progress, written, total);
        }
    }
    Ok(())
}

/// Writes the page of the assertion at an index. Returns whether the statement there is an
/// assertion.
fn write_page<S: Folder>(
    alloc: Global,
    sources: &PageSources<'_>,
    index: usize,
    folder: &mut S,
) -> Result<bool, SiteFault>
    requires within { index < length (database_of sources.now) }
    requires sources { ArePageSources sources.now }
    ensures { OnOk result (WritesPages S.writes (IsPageOf sources.now) folder.old
        (page_file (index + 1) (get_or (database_of sources.now) index Open)) folder.new) }
{
    let Some(label) = label_of(&sources.site.library.statements()[index]) else {
        return Ok(false);
    };
    let page = page_at(alloc, sources, index)?;
    let mut name = Vec::new(alloc);
    push_file_name(&mut name, label.as_bytes(), index + 1)?;
    write_file(alloc, folder, name.as_slice(), page.as_slice())?;
    Ok(true)
}

/// Returns the label of an assertion, or `None` if the statement is not an assertion.
fn label_of(statement: &Stmt) -> Option<&Word>
    ensures file { (at : ℕ) → page_file at statement.now
        ≡ page_file_of_label at (option_map (λ label. label.now) result) }
    ensures assertion { is_some result ≡ is_assertion statement.now }
{
    match statement {
        Stmt::Axiom { label, .. } => Some(label),
        Stmt::Prove { label, .. } => Some(label),
        _ => None,
    }
}

/// Returns how many of the statements are assertions.
fn count_of_assertions(statements: &[Stmt]) -> u64 {
    let mut count = 0u64;
    for statement in statements {
        if label_of(statement).is_some() {
            count = count.saturating_add(1);
        }
    }
    count
}
