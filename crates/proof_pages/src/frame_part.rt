//! The frame of an assertion on its page, and a legend of its colours.
ghost use Rattle.std.specs.Prelude.{◌≡◌, ◌<◌, ◌++◌, [], if◌then◌else◌, length, flat_map, OnOk};
ghost use Rattle.mm_read.specs.declared.stmt.Stmt.{Stmt as Statement};
ghost use Rattle.frame.specs.FrameOf.{HasAssertion};
ghost use Rattle.proof_pages.specs.Sections.{group_html};
ghost use Rattle.proof_pages.specs.Pages.{essential_part, floating_part, frame_html, group_numbers};
ghost use Rattle.proof_pages.specs.Pages.{groups_part, hypotheses_part, hypothesis_html};
ghost use Rattle.proof_pages.specs.Pages.{is_covered_by, is_covered_by_first, is_in, is_within};
ghost use Rattle.proof_pages.specs.Pages.{legend_html, shown_groups, table_html, typecode_html};
ghost use Rattle.proof_pages.specs.Pages.{view_of};

use crate::notation::{Notation, push_coloured, push_html_expr};
use crate::page_values::PageValues;
use crate::partition::{choose_essential, expr_at};
use crate::rows::push_row_rest;
use crate::typecodes::Typecodes;
use entries::Groups;
use frame::Frames;
use std::alloc::{AllocError, Global};

/// Appends the mandatory hypotheses, the disjoint variables, and a legend: the typecode of each
/// `$f` that is a hypothesis or that a step cites, in the colour of its variables.
pub fn push_frame(
    alloc: Global,
    page: &mut Vec<u8>,
    values: &PageValues<'_>,
) -> Result<(), AllocError>
    requires { (s : Statement) × HasAssertion values.now.notation.frames.now.statements
        values.now.contents.now.at s }
    ensures { OnOk result (page.new.items ≡ page.old.items
        ++ frame_html (view_of values.now.notation) values.now.hypotheses.now values.now.contents.now) }
{
    push_hypotheses(alloc, page, &values.notation, values.hypotheses)?;
    let contents = values.contents;
    push_disjoint(page, &values.notation, contents.at)?;
    push_legend(page, &values.notation, contents.typecodes)
}

/// Appends the `$e` as a table, and the `$f` in a collapsed section.
fn push_hypotheses(
    alloc: Global,
    page: &mut Vec<u8>,
    notation: &Notation<'_>,
    positions: &[u32],
) -> Result<(), AllocError>
    ensures { OnOk result (page.new.items ≡ page.old.items
        ++ hypotheses_part (view_of notation.now) positions.now) }
{
    let essential = choose_essential(alloc, notation.statements, true, positions)?;
    let floating = choose_essential(alloc, notation.statements, false, positions)?;
    push_essential(page, notation, essential.as_slice())?;
    push_floating(page, notation, floating.as_slice())
}

/// Appends the `$e` under a heading.
fn push_essential(
    page: &mut Vec<u8>,
    notation: &Notation<'_>,
    positions: &[u32],
) -> Result<(), AllocError>
    ensures { OnOk result (page.new.items ≡ page.old.items
        ++ essential_part (view_of notation.now) positions.now) }
{
    if positions.is_empty() {
        return Ok(());
    }
    page.extend_from_slice(b"<h2>Hypotheses</h2>\n")?;
    push_table(page, notation, positions)
}

/// Appends the `$f` in a collapsed section.
fn push_floating(
    page: &mut Vec<u8>,
    notation: &Notation<'_>,
    positions: &[u32],
) -> Result<(), AllocError>
    ensures { OnOk result (page.new.items ≡ page.old.items
        ++ floating_part (view_of notation.now) positions.now) }
{
    if positions.is_empty() {
        return Ok(());
    }
    page.extend_from_slice(b"<details>\n<summary>Floating hypotheses</summary>\n")?;
    push_table(page, notation, positions)?;
    page.extend_from_slice(b"</details>\n")
}

/// Appends a table of hypotheses.
fn push_table(
    page: &mut Vec<u8>,
    notation: &Notation<'_>,
    positions: &[u32],
) -> Result<(), AllocError>
    ensures { OnOk result (page.new.items ≡ page.old.items
        ++ table_html (view_of notation.now) positions.now) }
{
    page.extend_from_slice(b"<table>\n<tbody>\n")?;
    push_rows(page, notation, positions)?;
    page.extend_from_slice(b"</tbody>\n</table>\n")
}

/// Appends the rows of a table of hypotheses.
fn push_rows(
    page: &mut Vec<u8>,
    notation: &Notation<'_>,
    positions: &[u32],
) -> Result<(), AllocError>
    ensures { OnOk result (page.new.items ≡ page.old.items
        ++ flat_map (hypothesis_html (view_of notation.now)) positions.now) }
{
    for position in positions {
        push_hypothesis(page, notation, *position as usize)?;
    }
    Ok(())
}

/// Appends a hypothesis as a row of a table.
fn push_hypothesis(
    page: &mut Vec<u8>,
    notation: &Notation<'_>,
    position: usize,
) -> Result<(), AllocError>
    ensures { OnOk result (page.new.items ≡ page.old.items
        ++ hypothesis_html (view_of notation.now) position) }
{
    page.extend_from_slice(b"<tr><td>")?;
    push_row_rest(page, notation, position, expr_at(notation.frames, position))
}

/// Appends the groups of disjoint variables of the assertion at a position.
fn push_disjoint(page: &mut Vec<u8>, notation: &Notation<'_>, at: usize) -> Result<(), AllocError>
    requires { (s : Statement) × HasAssertion notation.now.frames.now.statements at s }
    ensures { OnOk result (page.new.items ≡ page.old.items ++ groups_part (view_of notation.now)
        (group_numbers notation.now.frames.now.names notation.now.frames.now.statements at)) }
{
    let groups = notation.frames.groups(at)?;
    // The clause of this call says that the names of the symbols are distinct.
    let _pairs = notation.frames.active_pairs(at);
    push_groups(page, notation, &groups.as_groups())
}

/// Appends the groups as a list, without those that are part of another one.
fn push_groups(
    page: &mut Vec<u8>,
    notation: &Notation<'_>,
    groups: &Groups<'_>,
) -> Result<(), AllocError>
    ensures { OnOk result (page.new.items ≡ page.old.items
        ++ groups_part (view_of notation.now) groups.now) }
{
    if groups.len() == 0 {
        return Ok(());
    }
    page.extend_from_slice(b"<h2>Distinct variables</h2>\n<ul class=\"groups\">\n")?;
    push_shown_groups(page, notation, groups)?;
    page.extend_from_slice(b"</ul>\n")
}

/// Appends the groups as items, without those that are part of another one.
fn push_shown_groups(
    page: &mut Vec<u8>,
    notation: &Notation<'_>,
    groups: &Groups<'_>,
) -> Result<(), AllocError>
    ensures { OnOk result (page.new.items ≡ page.old.items
        ++ shown_groups (view_of notation.now) groups.now (length groups.now)) }
{
    for index in 0..groups.len() {
        push_group_unless(page, notation, is_covered(groups, index), groups.get(index))?;
    }
    Ok(())
}

/// Appends a group, unless it is part of another one.
fn push_group_unless(
    page: &mut Vec<u8>,
    notation: &Notation<'_>,
    is_covered: bool,
    group: &[u32],
) -> Result<(), AllocError>
    ensures { OnOk result (page.new.items ≡ page.old.items ++ (if is_covered then [] else
        group_html notation.now.frames.now.names notation.now.css_classes.now.by_symbol.items group.now)) }
{
    if is_covered {
        Ok(())
    } else {
        push_group(page, notation, group)
    }
}

/// Appends a group as an item of a list.
fn push_group(page: &mut Vec<u8>, notation: &Notation<'_>, group: &[u32]) -> Result<(), AllocError>
    ensures { OnOk result (page.new.items ≡ page.old.items ++ group_html notation.now.frames.now.names
        notation.now.css_classes.now.by_symbol.items group.now) }
{
    page.extend_from_slice(b"<li>")?;
    push_html_expr(page, notation, group)?;
    page.extend_from_slice(b"\n")
}

/// Returns whether another group has all variables of the group at an index; of groups with the
/// same variables the first one is not covered by the others.
#[tactic(auto, using(crate::proofs::GroupLemmas::covered_next))]
fn is_covered(groups: &Groups<'_>, index: usize) -> bool
    requires { index < length groups.now }
    ensures { result ≡ is_covered_by_first groups.now index (length groups.now) }
{
    let mut is_covered = false;
    for other in 0..groups.len() {
        is_covered |= is_covered_by(groups.get(index), groups.get(other), other < index);
    }
    is_covered
}

/// Returns whether each variable of a group is in the other one, which has further ones or stands
/// before it.
fn is_covered_by(group: &[u32], other: &[u32], is_before: bool) -> bool
    ensures { result ≡ is_covered_by group.now other.now is_before }
{
    is_within(group, other) && (is_before || group.len() < other.len())
}

/// Returns whether each variable of a group is in the other one.
fn is_within(group: &[u32], other: &[u32]) -> bool
    ensures { result ≡ is_within group.now other.now }
{
    group.iter().all(|variable| is_in(*variable, other))
}

/// Returns whether a variable is in a group.
fn is_in(variable: u32, group: &[u32]) -> bool
    ensures { result ≡ is_in variable group.now }
{
    group.iter().any(|other| *other == variable)
}

/// Appends each typecode that has a CSS class, in the colour of its variables.
fn push_legend(
    page: &mut Vec<u8>,
    notation: &Notation<'_>,
    typecodes: &Typecodes,
) -> Result<(), AllocError>
    ensures { OnOk result (page.new.items ≡ page.old.items ++ legend_html typecodes.now
        notation.now.frames.now.names notation.now.css_classes.now.page_typecodes.items) }
{
    let shown = notation.css_classes.page_typecodes.as_slice();
    if shown.is_empty() {
        return Ok(());
    }
    page.extend_from_slice(b"<p class=\"legend\">Variables:")?;
    push_typecodes(page, notation.frames, typecodes, shown)?;
    page.extend_from_slice(b"</p>\n")
}

/// Appends typecodes, each after a space, in the colours of their variables.
fn push_typecodes(
    page: &mut Vec<u8>,
    frames: &Frames,
    typecodes: &Typecodes,
    shown: &[u32],
) -> Result<(), AllocError>
    ensures { OnOk result (page.new.items ≡ page.old.items
        ++ flat_map (typecode_html typecodes.now frames.now.names) shown.now) }
{
    for typecode in shown {
        push_typecode(page, frames, typecodes, *typecode)?;
    }
    Ok(())
}

/// Appends a typecode after a space, in the colour of its variables.
fn push_typecode(
    page: &mut Vec<u8>,
    frames: &Frames,
    typecodes: &Typecodes,
    typecode: u32,
) -> Result<(), AllocError>
    ensures { OnOk result (page.new.items ≡ page.old.items
        ++ typecode_html typecodes.now frames.now.names typecode) }
{
    page.extend_from_slice(b" ")?;
    push_coloured(page, typecodes.class_of(typecode), frames.symbol(typecode))
}
