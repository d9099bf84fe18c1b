//! The page of an assertion: alone, or among the pages of a site.
ghost use Rattle.mm_read.specs.declared.stmt.Stmt.{Stmt as Statement};
ghost use Rattle.std.specs.Prelude.{◌≡◌, false, true, IfOk, OnOk};
ghost use Rattle.std.specs.Io.KnownBytes.{Appends};
ghost use Rattle.frame.specs.FrameOf.{HasAssertion};
ghost use Rattle.proof_pages.specs.Colours.{page_classes_view};
ghost use Rattle.proof_pages.specs.Pages.{hypotheses_at, page_classes, page_html, parts_html};
ghost use Rattle.proof_pages.specs.Pages.{view_of};

use crate::contents::PageContents;
use crate::css_classes::CssClasses;
use crate::frame_part::push_frame;
use crate::notation::Notation;
use crate::opening::push_opening;
use crate::page_values::PageValues;
use crate::proof_part::{push_cited_by, write_proof};
use crate::writing::{WriteFault, write_buffered};
use frame::Frames;
use std::alloc::{AllocError, Global};
use std::io::Write;

/// Writes a page that stands alone: the assertion, its description if `contents` has one, its
/// hypotheses and disjoint variables; if `contents` has a proof, the essential steps, with
/// `shows_all_steps` also all steps, and the axioms that the assertion rests on; then the theorems
/// that cite it.
///
/// Errors: `Memory`, `Output`; part of the page may be written then. Cost: the size of the page,
/// the number of all steps, and tables up to the greatest symbol number; buffers at most 64 KiB,
/// one row of steps, and all that the page has besides the steps.
pub fn write_page<W: Write>(
    alloc: Global,
    out: &mut W,
    contents: &PageContents<'_>,
    shows_all_steps: bool,
) -> Result<(), WriteFault>
    requires { (s : Statement) × HasAssertion contents.now.frames.now.statements contents.now.at s }
    ensures { OnOk result (Appends (W.contents out.old) (W.contents out.new)
        (page_html false shows_all_steps contents.now)) }
{
    write_contents(alloc, out, contents, false, shows_all_steps)
}

/// Writes the page of an assertion as part of a site: the page of `write_page` with only the
/// essential steps, with the kind of the assertion, and with links to the style sheet, to the
/// index, to the pages before and after, and to the pages of the assertions that it names.
///
/// Errors and cost: those of `write_page`.
pub fn write_site_page<W: Write>(
    alloc: Global,
    out: &mut W,
    contents: &PageContents<'_>,
) -> Result<(), WriteFault>
    requires { (s : Statement) × HasAssertion contents.now.frames.now.statements contents.now.at s }
    ensures { OnOk result (Appends (W.contents out.old) (W.contents out.new)
        (page_html true false contents.now)) }
{
    write_contents(alloc, out, contents, true, false)
}

/// Finds the mandatory hypotheses and the CSS classes of the variables, and writes the page.
fn write_contents<W: Write>(
    alloc: Global,
    out: &mut W,
    contents: &PageContents<'_>,
    is_linked: bool,
    shows_all_steps: bool,
) -> Result<(), WriteFault>
    requires { (s : Statement) × HasAssertion contents.now.frames.now.statements contents.now.at s }
    ensures { OnOk result (Appends (W.contents out.old) (W.contents out.new)
        (page_html is_linked shows_all_steps contents.now)) }
{
    let hypotheses = hypotheses_of(alloc, contents.frames, contents.at)?;
    let css_classes = css_classes_of(alloc, contents, hypotheses.as_slice())?;
    let values = PageValues {
        contents,
        notation: Notation {
            statements: contents.statements,
            frames: contents.frames,
            css_classes: &css_classes,
            is_linked,
        },
        hypotheses: hypotheses.as_slice(),
        shows_all_steps,
    };
    write_parts(alloc, out, &values)
}

/// Writes the parts of the page one after another.
fn write_parts<W: Write>(
    alloc: Global,
    out: &mut W,
    values: &PageValues<'_>,
) -> Result<(), WriteFault>
    requires { (s : Statement) × HasAssertion values.now.notation.frames.now.statements
        values.now.contents.now.at s }
    ensures { OnOk result (Appends (W.contents out.old) (W.contents out.new)
        (parts_html (view_of values.now.notation) values.now.hypotheses.now
        values.now.shows_all_steps values.now.contents.now)) }
{
    let mut page = Vec::new(alloc);
    push_opening(&mut page, values)?;
    push_frame(alloc, &mut page, values)?;
    write_proof(alloc, out, &mut page, values)?;
    push_cited_by(&mut page, values)?;
    page.extend_from_slice(b"</body>\n</html>\n")?;
    write_buffered(out, &page)
}

/// Returns the positions of the mandatory hypotheses of the assertion at a position.
fn hypotheses_of(alloc: Global, frames: &Frames, at: usize) -> Result<Vec<u32>, AllocError>
    requires { (s : Statement) × HasAssertion frames.now.statements at s }
    ensures { IfOk result (λ list. list.items ≡ hypotheses_at frames.now.statements at) }
{
    let mut hypotheses = Vec::new(alloc);
    frames.mandatory(at, &mut hypotheses)?;
    Ok(hypotheses)
}

/// Returns the CSS classes of the variables: a variable has one if its `$f` is one of the
/// hypotheses or is cited by a step.
fn css_classes_of(
    alloc: Global,
    contents: &PageContents<'_>,
    hypotheses: &[u32],
) -> Result<CssClasses, AllocError>
    ensures { IfOk result
        (λ classes. page_classes_view classes ≡ page_classes contents.now hypotheses.now) }
{
    let mut css_classes = CssClasses::new(alloc);
    css_classes.record_hypotheses(contents, hypotheses)?;
    if let Some(proof) = &contents.proof {
        css_classes.record_steps(contents, proof.steps)?;
    }
    Ok(css_classes)
}
