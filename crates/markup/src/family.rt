//! The families of pages of an index, and the names of their files.
ghost use Rattle.std.specs.Prelude.{◌≡◌, ◌++◌, OnOk};
ghost use Rattle.markup.specs.Families.{stem, is_index, index_file, title, other_link};
ghost use Rattle.markup.specs.Families.{body_end, body_start};

use std::alloc::AllocError;
use text::push_number;

/// The families of pages of an index.
#[derive(Clone, Copy, Drop)]
pub(crate) enum Family {
    /// The list of statements of a database without headings; its first page is `index.html`.
    OnlyList,
    /// The list of statements of a database with headings.
    Listed,
    /// The list of parts; its first page is `index.html`.
    Parts,
}

/// Appends the name of the file of the page with this number, from 1.
///
/// Errors: an allocation fails.
pub(crate) fn push_index_file(
    name: &mut Vec<u8>,
    family: Family,
    number: usize,
) -> Result<(), AllocError>
    ensures { OnOk result (name.new.items ≡ name.old.items ++ index_file family number) }
{
    if number == 1 && is_index(family) {
        name.extend_from_slice(b"index.html")
    } else {
        name.extend_from_slice(stem(family))?;
        push_number(name, number as u64)?;
        name.extend_from_slice(b".html")
    }
}

/// Returns whether the first page of a family is `index.html`.
fn is_index(family: Family) -> bool
    ensures { result ≡ is_index family }
{
    match family {
        Family::OnlyList => true,
        Family::Listed => false,
        Family::Parts => true,
    }
}

/// Returns what the file names of a family begin with.
fn stem(family: Family) -> &'static [u8]
    ensures { result.now ≡ stem family }
{
    match family {
        Family::OnlyList => b"list.",
        Family::Listed => b"list.",
        Family::Parts => b"index.",
    }
}

/// Returns the title of the pages of a family.
pub(crate) fn title(family: Family) -> &'static [u8]
    ensures { result.now ≡ title family }
{
    match family {
        Family::OnlyList => b"All statements",
        Family::Listed => b"All statements",
        Family::Parts => b"Parts",
    }
}

/// Returns a link to the other family, if there is one.
pub(crate) fn other_link(family: Family) -> &'static [u8]
    ensures { result.now ≡ other_link family }
{
    match family {
        Family::OnlyList => b"",
        Family::Listed => b"<a href=\"index.html\">Parts</a>\n",
        Family::Parts => b"<a href=\"list.1.html\">All statements</a>\n",
    }
}

/// Returns what stands before the rows of a page.
pub(crate) fn body_start(family: Family) -> &'static [u8]
    ensures { result.now ≡ body_start family }
{
    match family {
        Family::OnlyList => LIST_START,
        Family::Listed => LIST_START,
        Family::Parts => b"<ul class=\"parts\">\n",
    }
}

/// What stands before the rows of a list of statements.
const LIST_START: &[u8] =
    b"<table>\n<thead>\n<tr><th>Kind</th><th>Label</th><th>Expression</th></tr>\n</thead>\n<tbody>\n";

/// Returns the end of a page, after its rows.
pub(crate) fn body_end(family: Family) -> &'static [u8]
    ensures { result.now ≡ body_end family }
{
    match family {
        Family::OnlyList => b"</tbody>\n</table>\n</body>\n</html>\n",
        Family::Listed => b"</tbody>\n</table>\n</body>\n</html>\n",
        Family::Parts => b"</ul>\n</body>\n</html>\n",
    }
}
