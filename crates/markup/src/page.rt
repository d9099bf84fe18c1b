//! A page of an index.
ghost use Rattle.std.specs.Prelude.{◌≡◌, ◌++◌, OnOk};
ghost use Rattle.markup.specs.Pages.{title_html, turn_link, previous_link, next_link};
ghost use Rattle.markup.specs.Pages.{turn_links, navigation, has_navigation, page_html};
ghost use Rattle.markup.specs.Pages.{body_html, page_head};

use crate::family::{Family, body_end, body_start, other_link, push_index_file, title};
use crate::page_start::push_page_start;
use std::alloc::AllocError;

/// Appends the page with this number, from 1, of `count` pages of a family.
///
/// Errors: an allocation fails. Cost: the size of the page.
pub(crate) fn push_page(
    page: &mut Vec<u8>,
    family: Family,
    number: usize,
    count: usize,
    rows: &[u8],
) -> Result<(), AllocError>
    ensures { OnOk result (page.new.items ≡ page.old.items ++ page_html family number count rows.now) }
{
    push_head(page, family)?;
    push_navigation(page, family, number, count)?;
    push_body(page, family, rows)
}

/// Appends the start of a page, its title, and the title again as a heading.
fn push_head(page: &mut Vec<u8>, family: Family) -> Result<(), AllocError>
    ensures { OnOk result (page.new.items ≡ page.old.items ++ page_head family) }
{
    push_page_start(page)?;
    page.extend_from_slice(title(family))?;
    push_title(page, family)
}

/// Appends what stands between the title and the navigation.
fn push_title(page: &mut Vec<u8>, family: Family) -> Result<(), AllocError>
    ensures { OnOk result (page.new.items ≡ page.old.items ++ title_html family) }
{
    page.extend_from_slice(
        b"</title>\n<link rel=\"stylesheet\" href=\"style.css\">\n</head>\n<body>\n<h1>",
    )?;
    page.extend_from_slice(title(family))?;
    page.extend_from_slice(b"</h1>\n")
}

/// Appends the rows of a page, and its end.
fn push_body(page: &mut Vec<u8>, family: Family, rows: &[u8]) -> Result<(), AllocError>
    ensures { OnOk result (page.new.items ≡ page.old.items ++ body_html family rows.now) }
{
    page.extend_from_slice(body_start(family))?;
    page.extend_from_slice(rows)?;
    page.extend_from_slice(body_end(family))
}

/// Appends links to the other family, to the previous page and to the next one, as far as there are
/// such pages.
fn push_navigation(
    page: &mut Vec<u8>,
    family: Family,
    number: usize,
    count: usize,
) -> Result<(), AllocError>
    ensures { OnOk result (page.new.items ≡ page.old.items ++ navigation family number count) }
{
    if has_navigation(family, count) {
        page.extend_from_slice(b"<p class=\"legend\">")?;
        page.extend_from_slice(other_link(family))?;
        push_turn_links(page, family, number, count)
    } else {
        Ok(())
    }
}

/// Returns whether there are pages besides this one.
fn has_navigation(family: Family, count: usize) -> bool
    ensures { result ≡ has_navigation family count }
{
    match family {
        Family::OnlyList => count > 1,
        Family::Listed => true,
        Family::Parts => true,
    }
}

/// Appends links to the previous page and to the next one, and ends the line.
fn push_turn_links(
    page: &mut Vec<u8>,
    family: Family,
    number: usize,
    count: usize,
) -> Result<(), AllocError>
    ensures { OnOk result (page.new.items ≡ page.old.items ++ turn_links family number count) }
{
    push_previous_link(page, family, number)?;
    push_next_link(page, family, number, count)?;
    page.extend_from_slice(b"</p>\n")
}

/// Appends a link to the previous page, if there is one.
fn push_previous_link(page: &mut Vec<u8>, family: Family, number: usize) -> Result<(), AllocError>
    ensures { OnOk result (page.new.items ≡ page.old.items ++ previous_link family number) }
{
    if number > 1 {
        push_turn_link(
            page,
            b"prev\" href=\"",
            family,
            number - 1,
            b"\">Previous</a>\n",
        )
    } else {
        Ok(())
    }
}

/// Appends a link to the next page, if there is one.
fn push_next_link(
    page: &mut Vec<u8>,
    family: Family,
    number: usize,
    count: usize,
) -> Result<(), AllocError>
    ensures { OnOk result (page.new.items ≡ page.old.items ++ next_link family number count) }
{
    if number < count {
        push_turn_link(
            page,
            b"next\" href=\"",
            family,
            number + 1,
            b"\">Next</a>\n",
        )
    } else {
        Ok(())
    }
}

/// Appends a link to the page with this number.
fn push_turn_link(
    page: &mut Vec<u8>,
    before: &[u8],
    family: Family,
    number: usize,
    after: &[u8],
) -> Result<(), AllocError>
    ensures { OnOk result (page.new.items
        ≡ page.old.items ++ turn_link before.now family number after.now) }
{
    page.extend_from_slice(b"<a rel=\"")?;
    page.extend_from_slice(before)?;
    push_index_file(page, family, number)?;
    page.extend_from_slice(after)
}
