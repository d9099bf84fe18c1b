//! Symbols and labels on a page.
ghost use Rattle.std.specs.Prelude.{◌≡◌, ◌++◌, Some, flat_map, OnOk};
ghost use Rattle.verify.specs.Proves.{label_or_empty};
ghost use Rattle.proof_pages.specs.Notations.{first_css_class_html, variable_html, coloured};
ghost use Rattle.proof_pages.specs.Notations.{symbol_html, expr_html, label_html, label_at_html};

use crate::css_classes::CssClasses;
use crate::typecodes::class_in;
use frame::{Frames, is_assertion};
use markup::push_page_link;
use mm_read::Stmt;
use std::alloc::AllocError;
use text::{push_html, push_number};

/// How a page shows the symbols and the labels of a database.
#[derive(Drop)]
pub(crate) struct Notation<'a> {
    /// The statements of the database.
    pub statements: &'a [Stmt],
    /// The frames of these statements; they also give each symbol number its name.
    pub frames: &'a Frames,
    /// The CSS classes of the variables.
    pub css_classes: &'a CssClasses,
    /// Whether the page is one of a site, on which the label of an assertion links to its page.
    pub is_linked: bool,
}

/// Appends a name in the colour of its CSS class; 0 is no class.
pub fn push_coloured(page: &mut Vec<u8>, css_class: u32, name: &[u8]) -> Result<(), AllocError>
    ensures { OnOk result (page.new.items ≡ page.old.items ++ coloured css_class name.now) }
{
    if css_class == 0 {
        push_html(page, name)
    } else if css_class == 1 {
        push_first_css_class(page, name)
    } else {
        push_variable(page, css_class, name)
    }
}

/// Appends a name in the colour of the first CSS class, which needs no attribute.
fn push_first_css_class(page: &mut Vec<u8>, name: &[u8]) -> Result<(), AllocError>
    ensures { OnOk result (page.new.items ≡ page.old.items ++ first_css_class_html name.now) }
{
    page.extend_from_slice(b"<var>")?;
    push_html(page, name)?;
    page.extend_from_slice(b"</var>")
}

fn push_variable(page: &mut Vec<u8>, css_class: u32, name: &[u8]) -> Result<(), AllocError>
    ensures { OnOk result (page.new.items ≡ page.old.items ++ variable_html css_class name.now) }
{
    page.extend_from_slice(b"<var class=\"k")?;
    push_number(page, css_class as u64)?;
    page.extend_from_slice(b"\">")?;
    push_html(page, name)?;
    page.extend_from_slice(b"</var>")
}

/// Appends a symbol after a space, in the colour of its CSS class.
fn push_html_symbol(
    page: &mut Vec<u8>,
    notation: &Notation<'_>,
    symbol: u32,
) -> Result<(), AllocError>
    ensures { OnOk result (page.new.items ≡ page.old.items
        ++ symbol_html notation.now.frames.now.names notation.now.css_classes.now.by_symbol.items symbol) }
{
    let css_class = class_in(&notation.css_classes.by_symbol, symbol);
    page.extend_from_slice(b" ")?;
    push_coloured(page, css_class, notation.frames.symbol(symbol))
}

/// Appends the symbols of an expression, each after a space.
pub fn push_html_expr(
    page: &mut Vec<u8>,
    notation: &Notation<'_>,
    expr: &[u32],
) -> Result<(), AllocError>
    ensures { OnOk result (page.new.items ≡ page.old.items
        ++ expr_html notation.now.frames.now.names notation.now.css_classes.now.by_symbol.items expr.now) }
{
    for symbol in expr {
        push_html_symbol(page, notation, *symbol)?;
    }
    Ok(())
}

/// Returns the label of a statement, empty if it has none.
pub fn label_of(statement: &Stmt) -> &[u8]
    ensures { result.now ≡ label_or_empty (Some statement.now) }
{
    match statement {
        Stmt::Float { label, .. } => label.as_bytes(),
        Stmt::Ess { label, .. } => label.as_bytes(),
        Stmt::Axiom { label, .. } => label.as_bytes(),
        Stmt::Prove { label, .. } => label.as_bytes(),
        _ => &[],
    }
}

/// Appends the label of the statement at a position, as a link if it is an assertion and labels are
/// linked.
pub fn push_label(
    page: &mut Vec<u8>,
    is_linked: bool,
    statement: &Stmt,
    position: usize,
) -> Result<(), AllocError>
    ensures { OnOk result (page.new.items
        ≡ page.old.items ++ label_html is_linked position statement.now) }
{
    if is_linked && is_assertion(statement) {
        push_page_link(page, label_of(statement), position)
    } else {
        push_html(page, label_of(statement))
    }
}

/// Appends the label of the statement at a position, if there is one: as a link to its page if it
/// is an assertion and labels are linked.
///
/// Errors: an allocation fails. Cost: the size of the label.
pub(crate) fn push_label_at(
    page: &mut Vec<u8>,
    notation: &Notation<'_>,
    position: usize,
) -> Result<(), AllocError>
    ensures { OnOk result (page.new.items ≡ page.old.items
        ++ label_at_html notation.now.is_linked notation.now.statements.now position) }
{
    if position == 0 || position > notation.statements.len() {
        return Ok(());
    }
    push_label(
        page,
        notation.is_linked,
        &notation.statements[position - 1],
        position,
    )
}
