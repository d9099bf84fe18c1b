//! A label as a link to its page.
ghost use Rattle.std.specs.Prelude.{◌≡◌, ◌++◌, OnOk};
ghost use Rattle.markup.specs.Links.{link_start, page_link};

use std::alloc::AllocError;
use text::{push_file_name, push_html};

/// Appends the start of a link to the page of the assertion with this label at this position.
fn push_link_start(page: &mut Vec<u8>, label: &[u8], position: usize) -> Result<(), AllocError>
    ensures { OnOk result (page.new.items ≡ page.old.items ++ link_start label.now position) }
{
    page.extend_from_slice(b"<a href=\"")?;
    push_file_name(page, label, position)?;
    page.extend_from_slice(b"\">")
}

/// Appends a label as a link to the page of the assertion with this label at this position.
///
/// Errors: an allocation fails; the page is then unspecified. Cost: the length of the label.
pub fn push_page_link(page: &mut Vec<u8>, label: &[u8], position: usize) -> Result<(), AllocError>
    ensures { OnOk result (page.new.items ≡ page.old.items ++ page_link label.now position) }
{
    push_link_start(page, label, position)?;
    push_html(page, label)?;
    page.extend_from_slice(b"</a>")
}
