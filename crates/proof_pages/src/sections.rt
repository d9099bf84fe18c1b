//! Sections of a page that list labels. A section without a label is left out.
ghost use Rattle.std.specs.Prelude.{◌≡◌, ◌++◌, OnOk};
ghost use Rattle.proof_pages.specs.TableRows.{list_html};
ghost use Rattle.proof_pages.specs.Sections.{section_html, collapsed_html};

use crate::notation::Notation;
use crate::rows::push_list;
use std::alloc::AllocError;

/// Appends a heading, and the labels of the statements at these positions as a list; nothing if
/// there are none.
///
/// Errors: an allocation fails. Cost: the size of the section.
pub(crate) fn push_section(
    page: &mut Vec<u8>,
    notation: &Notation<'_>,
    heading: &[u8],
    positions: &[u32],
) -> Result<(), AllocError>
    ensures { OnOk result (page.new.items ≡ page.old.items ++ section_html notation.now.is_linked
        notation.now.statements.now heading.now positions.now) }
{
    match positions.split_first() {
        None => Ok(()),
        Some((first, others)) => {
            page.extend_from_slice(heading)?;
            push_list(page, notation, *first, others)
        }
    }
}

/// Appends a collapsed section with this summary; nothing if there are no positions.
///
/// Errors: an allocation fails. Cost: the size of the section.
pub(crate) fn push_collapsed(
    page: &mut Vec<u8>,
    notation: &Notation<'_>,
    summary: &[u8],
    positions: &[u32],
) -> Result<(), AllocError>
    ensures { OnOk result (page.new.items ≡ page.old.items ++ collapsed_html notation.now.is_linked
        notation.now.statements.now summary.now positions.now) }
{
    match positions.split_first() {
        None => Ok(()),
        Some((first, others)) => {
            page.extend_from_slice(summary)?;
            push_list(page, notation, *first, others)?;
            page.extend_from_slice(b"</details>\n")
        }
    }
}
