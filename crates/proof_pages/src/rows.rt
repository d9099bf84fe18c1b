//! Rows of tables, and lists of labels. The end tags of rows, cells and items are omitted, as HTML
//! allows.
ghost use Rattle.std.specs.Prelude.{◌≡◌, ◌<◌, ◌++◌, length, get_or, flat_map, OnOk};
ghost use Rattle.steps.specs.Rows.{no_row};
ghost use Rattle.proof_pages.specs.TableRows.{link_html, row_start, number_and_links_html};
ghost use Rattle.proof_pages.specs.TableRows.{row_rest, step_html, item_html, list_html};

use crate::notation::{Notation, push_html_expr, push_label_at};
use crate::step_lines::push_step_number;
use std::alloc::AllocError;
use steps::ProofTable;

fn push_link(page: &mut Vec<u8>, id_prefix: &[u8], index: usize) -> Result<(), AllocError>
    ensures { OnOk result (page.new.items ≡ page.old.items ++ link_html id_prefix.now index) }
{
    page.extend_from_slice(b" <a href=\"#")?;
    page.extend_from_slice(id_prefix)?;
    push_step_number(page, index)?;
    page.extend_from_slice(b"\">")?;
    push_step_number(page, index)?;
    page.extend_from_slice(b"</a>")
}

fn push_links(page: &mut Vec<u8>, id_prefix: &[u8], indexes: &[usize]) -> Result<(), AllocError>
    ensures { OnOk result (page.new.items ≡ page.old.items ++ flat_map (link_html id_prefix.now) indexes.now) }
{
    for index in indexes {
        push_link(page, id_prefix, *index)?;
    }
    Ok(())
}

/// Appends the start of a row, with its id.
fn push_row_start(page: &mut Vec<u8>, id_prefix: &[u8], index: usize) -> Result<(), AllocError>
    ensures { OnOk result (page.new.items ≡ page.old.items ++ row_start id_prefix.now index) }
{
    page.extend_from_slice(b"<tr id=\"")?;
    page.extend_from_slice(id_prefix)?;
    push_step_number(page, index)?;
    page.extend_from_slice(b"\"><td>")
}

/// Appends the number of a step, and links to the rows of the steps that it takes.
fn push_number_and_links(
    page: &mut Vec<u8>,
    id_prefix: &[u8],
    index: usize,
    taken: &[usize],
) -> Result<(), AllocError>
    ensures { OnOk result (page.new.items ≡ page.old.items ++ number_and_links_html id_prefix.now index taken.now) }
{
    push_step_number(page, index)?;
    page.extend_from_slice(b"<td>")?;
    push_links(page, id_prefix, taken)?;
    page.extend_from_slice(b"<td>")
}

/// Appends the label of the statement at a position and an expression, and ends the row.
pub fn push_row_rest(
    page: &mut Vec<u8>,
    notation: &Notation<'_>,
    position: usize,
    expr: &[u32],
) -> Result<(), AllocError>
    ensures { OnOk result (page.new.items ≡ page.old.items
        ++ row_rest notation.now.is_linked notation.now.statements.now notation.now.frames.now.names
        notation.now.css_classes.now.by_symbol.items position expr.now) }
{
    push_label_at(page, notation, position)?;
    page.extend_from_slice(b"<td>")?;
    push_html_expr(page, notation, expr)?;
    page.extend_from_slice(b"\n")
}

/// Appends the step at an index as a row: its number, links to the rows of the steps that it takes,
/// the label of the statement that it cites, its expression. The ids of the rows of one table share
/// the prefix `id_prefix`.
///
/// Errors: an allocation fails. Cost: the size of the row.
pub(crate) fn push_html_step(
    page: &mut Vec<u8>,
    notation: &Notation<'_>,
    id_prefix: &[u8],
    table: &ProofTable,
    index: usize,
) -> Result<(), AllocError>
    requires { index < length table.now }
    ensures { OnOk result (page.new.items ≡ page.old.items
        ++ step_html notation.now.is_linked notation.now.statements.now notation.now.frames.now.names
        notation.now.css_classes.now.by_symbol.items id_prefix.now index (get_or table.now index no_row)) }
{
    push_row_start(page, id_prefix, index)?;
    push_number_and_links(page, id_prefix, index, table.taken(index))?;
    push_row_rest(page, notation, table.position(index), table.expr(index))
}

/// Appends the label of the statement at a position as an item of a list.
fn push_item(page: &mut Vec<u8>, notation: &Notation<'_>, position: u32) -> Result<(), AllocError>
    ensures { OnOk result (page.new.items ≡ page.old.items
        ++ item_html notation.now.is_linked notation.now.statements.now position) }
{
    page.extend_from_slice(b"<li>")?;
    push_label_at(page, notation, position as usize)?;
    page.extend_from_slice(b"\n")
}

fn push_items(
    page: &mut Vec<u8>,
    notation: &Notation<'_>,
    positions: &[u32],
) -> Result<(), AllocError>
    ensures { OnOk result (page.new.items ≡ page.old.items
        ++ flat_map (item_html notation.now.is_linked notation.now.statements.now) positions.now) }
{
    for position in positions {
        push_item(page, notation, *position)?;
    }
    Ok(())
}

/// Appends a list of labels: of the statement at `first`, then of those at `others`.
///
/// Errors: an allocation fails. Cost: the size of the list.
pub(crate) fn push_list(
    page: &mut Vec<u8>,
    notation: &Notation<'_>,
    first: u32,
    others: &[u32],
) -> Result<(), AllocError>
    ensures { OnOk result (page.new.items ≡ page.old.items
        ++ list_html notation.now.is_linked notation.now.statements.now first others.now) }
{
    page.extend_from_slice(b"<ul>\n")?;
    push_item(page, notation, first)?;
    push_items(page, notation, others)?;
    page.extend_from_slice(b"</ul>\n")
}
