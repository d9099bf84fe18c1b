//! The rows of the index of a database.
ghost use Rattle.std.specs.Prelude.{◌≡◌, ◌+◌, slice_get, map, IfOk, OnOk};
ghost use Rattle.markup.specs.IndexItems.{item_view};
ghost use Rattle.markup.specs.Drafts.{axiom_kind, marked_at, start, state_of, with_assertion};
ghost use Rattle.markup.specs.Drafts.{with_heading, with_item, with_items, with_option};
ghost use Rattle.markup.specs.Drafts.{with_statement};
ghost use Rattle.markup.specs.Rows.{assertion_row};

use crate::headings::Heading;
use crate::items::IndexItem;
use crate::paged_rows::{PagedRows, next_number};
use crate::rows::{push_assertion_row, push_heading_row, push_part_entry};
use mm_lex::Words;
use mm_read::Stmt;
use std::alloc::{AllocError, Global};

/// What an index is made of.
#[derive(Drop)]
pub struct IndexSources<'a> {
    /// All statements of the database.
    pub statements: &'a [Stmt],
    /// For each statement whether it is a theorem that is not proved and was taken as a `$a`; a
    /// statement without a mark is none.
    pub is_unproved: &'a [bool],
    /// The headings and the statements of the text, in order.
    pub items: &'a [IndexItem<'a>],
}

/// The rows of an index.
#[derive(Drop)]
pub(crate) struct IndexDraft {
    pub alloc: Global,
    /// The rows of headings and assertions.
    pub rows: PagedRows,
    /// The entries of headings.
    pub parts: PagedRows,
    /// The number of headings.
    pub headings: usize,
}

/// Returns the rows of the index of a database.
///
/// Errors: an allocation fails. Cost: the size of the rows.
#[tactic(auto, using(crate::proofs::PageLemmas::items_next, crate::proofs::PageLemmas::items_end))]
pub(crate) fn draft_of(alloc: Global, sources: &IndexSources<'_>) -> Result<IndexDraft, AllocError>
    ensures { IfOk result (λ draft. state_of draft ≡ with_items sources.now.statements.now
        sources.now.is_unproved.now start (map item_view sources.now.items.now)) }
{
    let mut draft = IndexDraft {
        alloc,
        rows: PagedRows::new(alloc),
        parts: PagedRows::new(alloc),
        headings: 0,
    };
    let items = sources.items;
    for item in items {
        draft.push_item(sources, item)?;
    }
    Ok(draft)
}

impl IndexDraft {
    /// Appends the row of an item, and the entry of a heading.
    fn push_item(
        &mut self,
        sources: &IndexSources<'_>,
        item: &IndexItem<'_>,
    ) -> Result<(), AllocError>
        ensures { OnOk result (state_of self.new ≡ with_item sources.now.statements.now
            sources.now.is_unproved.now (state_of self.old) (item_view item.now)) }
    {
        match item {
            IndexItem::Heading(heading) => self.push_heading(heading),
            IndexItem::Statement(index) => {
                let is_unproved = is_marked(sources.is_unproved, *index);
                self.push_statement_at(sources.statements, is_unproved, *index)
            }
        }
    }

    /// Appends the row of the statement at an index, if there is one and it is an assertion.
    fn push_statement_at(
        &mut self,
        statements: &[Stmt],
        is_unproved: bool,
        index: usize,
    ) -> Result<(), AllocError>
        ensures { OnOk result (state_of self.new
            ≡ with_option (state_of self.old) is_unproved index (slice_get statements.now index)) }
    {
        match statements.get(index) {
            Some(statement) => self.push_statement(statement, is_unproved, index),
            None => Ok(()),
        }
    }

    /// Appends the row and the entry of a heading.
    fn push_heading(&mut self, heading: &Heading<'_>) -> Result<(), AllocError>
        ensures { OnOk result (state_of self.new
            ≡ with_heading (state_of self.old) heading.now.level heading.now.title.now) }
    {
        let number = next_number(self.headings)?;
        let mut row = Vec::new(self.alloc);
        push_heading_row(&mut row, number, heading)?;
        self.rows.push(&row)?;
        let page = self.rows.last_number()?;
        let mut entry = Vec::new(self.alloc);
        push_part_entry(&mut entry, page, number, heading)?;
        self.parts.push(&entry)?;
        self.headings = number;
        Ok(())
    }

    /// Appends the row of a statement at an index, if it is an assertion.
    fn push_statement(
        &mut self,
        statement: &Stmt,
        is_unproved: bool,
        index: usize,
    ) -> Result<(), AllocError>
        ensures { OnOk result (state_of self.new
            ≡ with_statement (state_of self.old) is_unproved index statement.now) }
    {
        match statement {
            Stmt::Axiom { label, expr } => {
                let kind = axiom_kind(is_unproved);
                self.push_assertion(kind, label.as_bytes(), expr, index)
            }
            Stmt::Prove { label, expr, .. } => {
                self.push_assertion(b"theorem", label.as_bytes(), expr, index)
            }
            _ => Ok(()),
        }
    }

    /// Appends the row of an assertion at an index.
    #[tactic(auto, using(crate::proofs::PageLemmas::assertion_is))]
    fn push_assertion(
        &mut self,
        kind: &[u8],
        label: &[u8],
        expr: &Words,
        index: usize,
    ) -> Result<(), AllocError>
        ensures { OnOk result (state_of self.new
            ≡ with_assertion (state_of self.old) (assertion_row kind.now label.now expr.now (index + 1))) }
    {
        let position = next_number(index)?;
        let mut row = Vec::new(self.alloc);
        push_assertion_row(&mut row, kind, label, expr, position)?;
        self.rows.push(&row)
    }
}

/// Returns the kind of a `$a` of the database.
fn axiom_kind(is_unproved: bool) -> &'static [u8]
    ensures { result.now ≡ axiom_kind is_unproved }
{
    if is_unproved {
        b"theorem, not proved"
    } else {
        b"axiom"
    }
}

/// Returns the mark at an index, or `false` if there is none.
fn is_marked(marks: &[bool], index: usize) -> bool
    ensures { result ≡ marked_at marks.now index }
{
    match marks.get(index) {
        Some(mark) => *mark,
        None => false,
    }
}
