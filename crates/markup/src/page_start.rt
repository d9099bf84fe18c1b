//! The start of every page.
ghost use Rattle.std.specs.Prelude.{◌≡◌, ◌++◌, OnOk};
ghost use Rattle.markup.specs.Links.{page_start};

use std::alloc::AllocError;

/// Appends the start of a page, up to the text of its title.
///
/// Errors: an allocation fails; the page is then unspecified.
pub fn push_page_start(page: &mut Vec<u8>) -> Result<(), AllocError>
    ensures { OnOk result (page.new.items ≡ page.old.items ++ page_start) }
{
    page.extend_from_slice(
        b"<!DOCTYPE html>\n<html lang=\"en\">\n<head>\n<meta charset=\"utf-8\">\n<meta name=\"viewport\" content=\"width=device-width, initial-scale=1\">\n<title>",
    )
}
