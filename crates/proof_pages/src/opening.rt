//! The start of a page.
ghost use Rattle.std.specs.Prelude.{◌≡◌, ◌++◌, option_map, OnOk};
ghost use Rattle.markup.specs.Descriptions.{description_html};
ghost use Rattle.proof_pages.specs.LabelPages.{linked_page};
ghost use Rattle.proof_pages.specs.Openings.{title_html, style_html, heading_html, head_html};
ghost use Rattle.proof_pages.specs.Openings.{kind_at, neighbour_html, kind_html, kind_line};
ghost use Rattle.proof_pages.specs.Openings.{description_part, marked_at, expr_part};
ghost use Rattle.proof_pages.specs.Pages.{kind_part, opening_html, view_of};
ghost use Rattle.scope.specs.Active.{stmt_at};
ghost use Rattle.verify.specs.Proves.{label_or_empty};

use crate::label_pages::SitePages;
use crate::neighbours::{next_assertion, previous_assertion};
use crate::notation::{Notation, label_of, push_html_expr, push_label_at};
use crate::page_values::PageValues;
use crate::partition::expr_at;
use crate::style::STYLE_SHEET;
use markup::{push_description, push_page_start};
use mm_read::Stmt;
use std::alloc::AllocError;
use text::push_html;

/// Appends the head of a page, with its title and its style, and the start of the body: the title
/// as a heading.
fn push_head(page: &mut Vec<u8>, title: &[u8], is_linked: bool) -> Result<(), AllocError>
    ensures { OnOk result (page.new.items ≡ page.old.items ++ head_html title.now is_linked) }
{
    push_page_start(page)?;
    push_title(page, title)?;
    push_style(page, is_linked)?;
    push_heading(page, title)
}

/// Appends the title, and its end tag.
fn push_title(page: &mut Vec<u8>, title: &[u8]) -> Result<(), AllocError>
    ensures { OnOk result (page.new.items ≡ page.old.items ++ title_html title.now) }
{
    push_html(page, title)?;
    page.extend_from_slice(b"</title>\n")
}

/// Appends the end of the head, and the title as a heading.
fn push_heading(page: &mut Vec<u8>, title: &[u8]) -> Result<(), AllocError>
    ensures { OnOk result (page.new.items ≡ page.old.items ++ heading_html title.now) }
{
    page.extend_from_slice(b"</head>\n<body>\n<h1>")?;
    push_html(page, title)?;
    page.extend_from_slice(b"</h1>\n")
}

/// Appends the style: a link to the style sheet of the site, or the style sheet itself.
fn push_style(page: &mut Vec<u8>, is_linked: bool) -> Result<(), AllocError>
    ensures { OnOk result (page.new.items ≡ page.old.items ++ style_html is_linked) }
{
    if is_linked {
        return page.extend_from_slice(b"<link rel=\"stylesheet\" href=\"style.css\">\n");
    }
    page.extend_from_slice(b"<style>\n")?;
    page.extend_from_slice(STYLE_SHEET)?;
    page.extend_from_slice(b"</style>\n")
}

/// Appends the part before the hypotheses: the head, the label as a heading, on a page of a site
/// the kind and links to the index and to the pages before and after, the description, and the
/// expression.
pub fn push_opening(page: &mut Vec<u8>, values: &PageValues<'_>) -> Result<(), AllocError>
    ensures { OnOk result (page.new.items ≡ page.old.items
        ++ opening_html (view_of values.now.notation) values.now.contents.now) }
{
    let notation = &values.notation;
    let contents = values.contents;
    push_head(
        page,
        label_at(notation.statements, contents.at),
        notation.is_linked,
    )?;
    push_kind_part(page, notation, contents.related.is_unproved, contents.at)?;
    let pages = SitePages {
        statements: notation.statements,
        frames: notation.frames,
        is_linked: notation.is_linked,
    };
    push_description_part(page, contents.related.description, &pages)?;
    push_expr_part(page, notation, expr_at(notation.frames, contents.at))
}

/// Appends the expression of the assertion.
fn push_expr_part(
    page: &mut Vec<u8>,
    notation: &Notation<'_>,
    expr: &[u32],
) -> Result<(), AllocError>
    ensures { OnOk result (page.new.items ≡ page.old.items ++ expr_part notation.now.frames.now.names
        notation.now.css_classes.now.by_symbol.items expr.now) }
{
    page.extend_from_slice(b"<p class=\"expr\">")?;
    push_html_expr(page, notation, expr)?;
    page.extend_from_slice(b"</p>\n")
}

/// Returns the label of the statement at a position, empty if it has none.
fn label_at(statements: &[Stmt], position: usize) -> &[u8]
    ensures { result.now ≡ label_or_empty (stmt_at statements.now position) }
{
    if position == 0 || position > statements.len() {
        return &[];
    }
    label_of(&statements[position - 1])
}

/// Appends the kind and the links of a page of a site.
fn push_kind_part(
    page: &mut Vec<u8>,
    notation: &Notation<'_>,
    marks: &[bool],
    at: usize,
) -> Result<(), AllocError>
    ensures { OnOk result (page.new.items ≡ page.old.items
        ++ kind_part (view_of notation.now) marks.now at) }
{
    if !notation.is_linked {
        return Ok(());
    }
    let statements = notation.statements;
    let kind = kind_at(statements, at, is_marked(marks, at));
    let previous = previous_assertion(statements, at);
    push_kind_line(
        page,
        notation,
        kind,
        previous,
        next_assertion(statements, at),
    )
}

/// Returns the mark at a position, or `false` if there is none.
pub(crate) fn is_marked(marks: &[bool], position: usize) -> bool
    ensures { result ≡ marked_at marks.now position }
{
    if position == 0 || position > marks.len() {
        return false;
    }
    marks[position - 1]
}

/// Returns the kind of the assertion at a position: a `$a` that is marked is a theorem that is not
/// proved.
fn kind_at(statements: &[Stmt], at: usize, is_unproved: bool) -> &'static [u8]
    ensures { result.now ≡ kind_at statements.now at is_unproved }
{
    if is_unproved {
        return b"Theorem, not proved";
    }
    if at == 0 || at > statements.len() {
        return b"Axiom";
    }
    match &statements[at - 1] {
        Stmt::Prove { .. } => b"Theorem",
        _ => b"Axiom",
    }
}

/// Appends the kind, a link to the index, and links to the assertions before and after.
fn push_kind_line(
    page: &mut Vec<u8>,
    notation: &Notation<'_>,
    kind: &[u8],
    previous: Option<usize>,
    next: Option<usize>,
) -> Result<(), AllocError>
    ensures { OnOk result (page.new.items ≡ page.old.items ++ kind_line notation.now.is_linked
        notation.now.statements.now kind.now previous next) }
{
    push_kind(page, kind)?;
    push_neighbour(page, notation, b" Previous: ", previous)?;
    push_neighbour(page, notation, b" Next: ", next)?;
    page.extend_from_slice(b"</p>\n")
}

/// Appends the kind and a link to the index.
fn push_kind(page: &mut Vec<u8>, kind: &[u8]) -> Result<(), AllocError>
    ensures { OnOk result (page.new.items ≡ page.old.items ++ kind_html kind.now) }
{
    page.extend_from_slice(b"<p class=\"legend\">")?;
    page.extend_from_slice(kind)?;
    page.extend_from_slice(b". <a href=\"index.html\">All statements</a>.")
}

/// Appends a text and the label of the statement at a position, if there is a position.
fn push_neighbour(
    page: &mut Vec<u8>,
    notation: &Notation<'_>,
    before: &[u8],
    position: Option<usize>,
) -> Result<(), AllocError>
    ensures { OnOk result (page.new.items ≡ page.old.items ++ neighbour_html notation.now.is_linked
        notation.now.statements.now before.now position) }
{
    match position {
        Some(position) => {
            page.extend_from_slice(before)?;
            push_label_at(page, notation, position)?;
            page.extend_from_slice(b".")
        }
        None => Ok(()),
    }
}

/// Appends the description, if there is one.
fn push_description_part(
    page: &mut Vec<u8>,
    description: Option<&[u8]>,
    pages: &SitePages<'_>,
) -> Result<(), AllocError>
    ensures { OnOk result (page.new.items ≡ page.old.items
        ++ description_part (linked_page pages.now.is_linked pages.now.statements.now
        pages.now.frames.now.statements) (option_map (λ d. d.now) description.entry)) }
{
    match description {
        Some(text) => {
            page.extend_from_slice(b"<p class=\"about\">")?;
            push_description(page, text, pages)?;
            page.extend_from_slice(b"</p>\n")
        }
        None => Ok(()),
    }
}
