//! The rows of the index. The end tags of rows, cells and items are omitted, as HTML allows.
ghost use Rattle.std.specs.Prelude.{◌≡◌, ◌++◌, OnOk};
ghost use Rattle.markup.specs.Rows.{kind_start, expr_cell, assertion_row, heading_id};
ghost use Rattle.markup.specs.Rows.{heading_cell, heading_row, list_link, part_entry};
ghost use Rattle.markup.specs.Rows.{numbered};

use crate::headings::Heading;
use crate::page_link::push_page_link;
use mm_lex::Words;
use std::alloc::AllocError;
use text::{push_html, push_number};

/// Appends the row of an assertion: its kind, its label as a link to its page, its expression.
///
/// Errors: an allocation fails. Cost: the size of the row.
pub(crate) fn push_assertion_row(
    row: &mut Vec<u8>,
    kind: &[u8],
    label: &[u8],
    expr: &Words,
    position: usize,
) -> Result<(), AllocError>
    ensures { OnOk result (row.new.items
        ≡ row.old.items ++ assertion_row kind.now label.now expr.now position) }
{
    push_kind_start(row, kind)?;
    push_page_link(row, label, position)?;
    push_expr_cell(row, expr)
}

/// Appends the start of a row and the kind of an assertion.
fn push_kind_start(row: &mut Vec<u8>, kind: &[u8]) -> Result<(), AllocError>
    ensures { OnOk result (row.new.items ≡ row.old.items ++ kind_start kind.now) }
{
    row.extend_from_slice(b"<tr><td>")?;
    row.extend_from_slice(kind)?;
    row.extend_from_slice(b"<td>")
}

/// Appends the cell of an expression, and ends the row.
fn push_expr_cell(row: &mut Vec<u8>, expr: &Words) -> Result<(), AllocError>
    ensures { OnOk result (row.new.items ≡ row.old.items ++ expr_cell expr.now) }
{
    row.extend_from_slice(b"<td>")?;
    push_html(row, expr.as_text())?;
    row.extend_from_slice(b"\n")
}

/// Appends the row of the heading with this number, from 1, whose id is `p` and the number.
///
/// Errors: an allocation fails. Cost: the length of the title.
pub(crate) fn push_heading_row(
    row: &mut Vec<u8>,
    number: usize,
    heading: &Heading<'_>,
) -> Result<(), AllocError>
    ensures { OnOk result (row.new.items
        ≡ row.old.items ++ heading_row number heading.now.level heading.now.title.now) }
{
    push_heading_id(row, number, heading.level)?;
    push_heading_cell(row, heading.title)
}

/// Appends the start of the row of a heading: its id, and its level as a class.
fn push_heading_id(row: &mut Vec<u8>, number: usize, level: u8) -> Result<(), AllocError>
    ensures { OnOk result (row.new.items ≡ row.old.items ++ heading_id number level) }
{
    push_numbered(row, b"<tr id=\"p", number as u64)?;
    push_numbered(row, b"\" class=\"h", level as u64)
}

/// Appends a text and a number.
fn push_numbered(row: &mut Vec<u8>, text: &[u8], number: u64) -> Result<(), AllocError>
    ensures { OnOk result (row.new.items ≡ row.old.items ++ numbered text.now number) }
{
    row.extend_from_slice(text)?;
    push_number(row, number)
}

/// Appends the cell of a heading, and ends the row.
fn push_heading_cell(row: &mut Vec<u8>, title: &[u8]) -> Result<(), AllocError>
    ensures { OnOk result (row.new.items ≡ row.old.items ++ heading_cell title.now) }
{
    row.extend_from_slice(b"\"><th colspan=\"3\">")?;
    push_html(row, title)?;
    row.extend_from_slice(b"\n")
}

/// Appends the entry of a heading in the list of parts: its title as a link to its row, which is on
/// the page `page` of the list of statements.
///
/// Errors: an allocation fails. Cost: the length of the title.
pub(crate) fn push_part_entry(
    row: &mut Vec<u8>,
    page: usize,
    number: usize,
    heading: &Heading<'_>,
) -> Result<(), AllocError>
    ensures { OnOk result (row.new.items
        ≡ row.old.items ++ part_entry page number heading.now.level heading.now.title.now) }
{
    push_numbered(row, b"<li class=\"h", heading.level as u64)?;
    push_list_link(row, page, number)?;
    push_html(row, heading.title)?;
    row.extend_from_slice(b"</a>\n")
}

/// Appends the start of a link to the row of a heading.
fn push_list_link(row: &mut Vec<u8>, page: usize, number: usize) -> Result<(), AllocError>
    ensures { OnOk result (row.new.items ≡ row.old.items ++ list_link page number) }
{
    push_numbered(row, b"\"><a href=\"list.", page as u64)?;
    push_numbered(row, b".html#p", number as u64)?;
    row.extend_from_slice(b"\">")
}
