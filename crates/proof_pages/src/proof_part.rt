//! The proof of a theorem on its page, and the theorems that cite an assertion.
ghost use Rattle.std.specs.Prelude.{◌≡◌, ◌++◌, OnOk};
ghost use Rattle.proof_pages.specs.Pages.{all_steps_html, cited_part, collapsed_steps, proof_html};
ghost use Rattle.proof_pages.specs.Pages.{sorted_axioms_html, steps_html, tables_html, view_of};
ghost use Rattle.proof_pages.specs.Partitions.{typecode_at};
ghost use Rattle.proof_pages.specs.Sections.{axioms_html};
ghost use Rattle.proof_pages.specs.Writing.{IsWrittenThenBuffered};

use crate::contents::ProofSteps;
use crate::notation::Notation;
use crate::page_values::PageValues;
use crate::partition::{choose_marked, choose_same_typecode, typecode_at};
use crate::rows::push_html_step;
use crate::sections::{push_collapsed, push_section};
use crate::writing::{WriteFault, write_if_full};
use std::alloc::{AllocError, Global};
use std::io::Write;
use steps::ProofTable;

/// Writes the proof and the axioms that it rests on, if there is a proof. Bytes not yet written to
/// `out` stay in `page`.
pub fn write_proof<W: Write>(
    alloc: Global,
    out: &mut W,
    page: &mut Vec<u8>,
    values: &PageValues<'_>,
) -> Result<(), WriteFault>
    ensures { OnOk result (IsWrittenThenBuffered (W.contents out.old) (W.contents out.new)
        page.new.items (page.old.items ++ proof_html (view_of values.now.notation)
        values.now.shows_all_steps values.now.contents.now values.now.contents.now.proof)) }
{
    let contents = values.contents;
    match &contents.proof {
        None => Ok(()),
        Some(proof) => {
            write_tables(out, page, &values.notation, proof, values.shows_all_steps)?;
            Ok(push_axioms(alloc, page, values)?)
        }
    }
}

/// Writes the essential steps, and with `shows_all_steps` all steps in a collapsed section.
fn write_tables<W: Write>(
    out: &mut W,
    page: &mut Vec<u8>,
    notation: &Notation<'_>,
    proof: &ProofSteps<'_>,
    shows_all_steps: bool,
) -> Result<(), WriteFault>
    ensures { OnOk result (IsWrittenThenBuffered (W.contents out.old) (W.contents out.new)
        page.new.items (page.old.items
        ++ tables_html (view_of notation.now) shows_all_steps proof.now)) }
{
    page.extend_from_slice(b"<h2>Proof</h2>\n")?;
    write_steps(out, page, notation, b"e", proof.essential)?;
    write_all_steps(out, page, notation, proof.steps, shows_all_steps)
}

/// Writes all steps in a collapsed section, if that is asked for.
#[tactic(auto, using(crate::proofs::WritingLemmas::nothing_on))]
fn write_all_steps<W: Write>(
    out: &mut W,
    page: &mut Vec<u8>,
    notation: &Notation<'_>,
    table: &ProofTable,
    shows_all_steps: bool,
) -> Result<(), WriteFault>
    ensures { OnOk result (IsWrittenThenBuffered (W.contents out.old) (W.contents out.new)
        page.new.items (page.old.items
        ++ all_steps_html (view_of notation.now) shows_all_steps table.now)) }
{
    if shows_all_steps {
        write_collapsed_steps(out, page, notation, table)
    } else {
        Ok(())
    }
}

/// Writes all steps in a collapsed section.
fn write_collapsed_steps<W: Write>(
    out: &mut W,
    page: &mut Vec<u8>,
    notation: &Notation<'_>,
    table: &ProofTable,
) -> Result<(), WriteFault>
    ensures { OnOk result (IsWrittenThenBuffered (W.contents out.old) (W.contents out.new)
        page.new.items (page.old.items ++ collapsed_steps (view_of notation.now) table.now)) }
{
    page.extend_from_slice(b"<details>\n<summary>All steps</summary>\n")?;
    write_steps(out, page, notation, b"s", table)?;
    Ok(page.extend_from_slice(b"</details>\n")?)
}

/// Writes the steps as a table. Bytes not yet written to `out` stay in `page`.
fn write_steps<W: Write>(
    out: &mut W,
    page: &mut Vec<u8>,
    notation: &Notation<'_>,
    id_prefix: &[u8],
    table: &ProofTable,
) -> Result<(), WriteFault>
    ensures { OnOk result (IsWrittenThenBuffered (W.contents out.old) (W.contents out.new)
        page.new.items (page.old.items
        ++ steps_html (view_of notation.now) id_prefix.now table.now)) }
{
    page.extend_from_slice(
        b"<table>\n<thead>\n<tr><th>Step</th><th>Takes</th><th>Cites</th><th>Expression</th></tr>\n</thead>\n<tbody>\n",
    )?;
    for index in 0..table.len() {
        push_html_step(page, notation, id_prefix, table, index)?;
        write_if_full(out, page)?;
    }
    Ok(page.extend_from_slice(b"</tbody>\n</table>\n")?)
}

/// Appends the axioms of the theorem's own typecode, the theorems among the axioms that are not
/// proved, and the other axioms in a collapsed section.
fn push_axioms(alloc: Global, page: &mut Vec<u8>, values: &PageValues<'_>) -> Result<(), AllocError>
    ensures { OnOk result (page.new.items ≡ page.old.items
        ++ sorted_axioms_html (view_of values.now.notation)
        values.now.contents.now.related.is_unproved.now
        (typecode_at values.now.notation.frames.now.names values.now.notation.frames.now.statements
        values.now.contents.now.at) values.now.contents.now.related.axioms.now) }
{
    let frames = values.notation.frames;
    let contents = values.contents;
    let related = &contents.related;
    let typecode = typecode_at(frames, contents.at);
    let unproved = choose_marked(alloc, related.is_unproved, true, related.axioms)?;
    let axioms = choose_marked(alloc, related.is_unproved, false, related.axioms)?;
    let own = choose_same_typecode(alloc, frames, typecode, true, axioms.as_slice())?;
    let others = choose_same_typecode(alloc, frames, typecode, false, axioms.as_slice())?;
    push_axiom_sections(
        page,
        &values.notation,
        own.as_slice(),
        unproved.as_slice(),
        others.as_slice(),
    )
}

/// Appends the axioms, the theorems that are not proved, and the axioms of other typecodes.
fn push_axiom_sections(
    page: &mut Vec<u8>,
    notation: &Notation<'_>,
    own: &[u32],
    unproved: &[u32],
    others: &[u32],
) -> Result<(), AllocError>
    ensures { OnOk result (page.new.items ≡ page.old.items ++ axioms_html notation.now.is_linked
        notation.now.statements.now own.now unproved.now others.now) }
{
    push_section(page, notation, b"<h2>Axioms that it rests on</h2>\n", own)?;
    push_section(
        page,
        notation,
        b"<h2>Theorems that it rests on and that are not proved</h2>\n",
        unproved,
    )?;
    push_collapsed(
        page,
        notation,
        b"<details>\n<summary>Axioms of other typecodes (syntax)</summary>\n",
        others,
    )
}

/// Appends the theorems whose proofs cite the assertion.
pub fn push_cited_by(page: &mut Vec<u8>, values: &PageValues<'_>) -> Result<(), AllocError>
    ensures { OnOk result (page.new.items ≡ page.old.items
        ++ cited_part (view_of values.now.notation) values.now.contents.now) }
{
    let contents = values.contents;
    push_section(
        page,
        &values.notation,
        b"<h2>Theorems that cite it</h2>\n",
        contents.related.cited_by,
    )
}
