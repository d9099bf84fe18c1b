//! Two variables of an assertion whose images violate the disjoint variable condition.
ghost use Rattle.std.specs.Prelude.{◌≡◌, ◌==◌, ◌&&◌, ◌<◌, length, not, true, false, IfOk};
ghost use Rattle.std.specs.Prelude.{MatchOption, OnOk};
ghost use Rattle.std.specs.List.{list_all, list_any};
ghost use Rattle.frame.specs.Below.{AllBelow, AreBelow};
ghost use Rattle.frame.specs.ListsOfPairs.{is_numbered_pair};
ghost use Rattle.frame.specs.MandatoryPairs.{has_number};
ghost use Rattle.frame.specs.Substitution.{code_image};
ghost use Rattle.subst.specs.DisjointImages.{are_numbers_disjoint, image_named, is_number_disjoint};
ghost use Rattle.subst.specs.Images.{AreOver};
ghost use Rattle.subst.specs.ReadImages.{HasReadOnly};
ghost use Rattle.subst.specs.Stored.SymbolSets.{has_symbol};
ghost use Rattle.subst.specs.SymbolRanges.{AreInside, images_at};
ghost use Rattle.subst.specs.Violations.{IsUnpairedWith, IsViolation, IsViolationOf};

use crate::buffer::Buffer;
use crate::disjoint_images::{DisjointImages, read_row};
use crate::image_ranges::ImageRanges;
use crate::symbol_range::symbols_at;
use crate::symbol_set::SymbolSet;
use entries::Groups;
use frame::Pairs;
use std::alloc::{AllocError, Global};

/// Two variables of an assertion, `first` and `second`, and a variable in the image of each. These
/// two are the same, or no active `$d` has both.
#[derive(Clone, Copy, Drop)]
pub struct DisjointViolation {
    pub first: u32,
    pub second: u32,
    pub in_first_image: u32,
    pub in_second_image: u32,
}

/// Returns two variables of one of the groups whose images are not disjoint at the statement of the
/// pairs, or `None` if the images of each two variables of each group are disjoint. The images are
/// ranges of the buffer.
///
/// Errors: those of `DisjointImages::is_disjoint`.
/// Cost: at most that of `DisjointImages::is_disjoint` for each variable of a group and those
/// before it, and the symbols of the images again.
/// Source: Metamath, 4.2.6.
pub fn first_violation(
    alloc: Global,
    pairs: &Pairs<'_>,
    groups: &Groups<'_>,
    symbols: &Buffer,
    images: &ImageRanges,
) -> Result<Option<DisjointViolation>, AllocError>
    requires named { AreOver pairs.now.names (images_at symbols.now images.now) }
    requires inside { AreInside (length symbols.now) images.now }
    requires below { AllBelow (length pairs.now.names) groups.now }
    ensures { IfOk result (λ found. MatchOption found
        (list_all (are_numbers_disjoint pairs.now.statements (image_named pairs.now.names (images_at symbols.now images.now))) groups.now ≡ true)
        (IsViolation pairs.now (images_at symbols.now images.now) groups.now)) }
{
    let mut disjoint_images = DisjointImages::new(alloc);
    disjoint_images.begin_citation(None);
    let symbols = symbols.as_slice();
    for k in 0..groups.len() {
        if let Some(violation) = disjoint_images.violation_in(
            pairs,
            symbols,
            images,
            groups.get(k),
        )? {
            return Ok(Some(violation));
        }
    }
    Ok(None)
}

impl DisjointImages {
    /// Returns two variables of a group whose images are not disjoint, if there are such.
    fn violation_in(
        &mut self,
        pairs: &Pairs<'_>,
        symbols: &[u32],
        images: &ImageRanges,
        group: &[u32],
    ) -> Result<Option<DisjointViolation>, AllocError>
        requires read { HasReadOnly pairs.now (images_at symbols.now images.now) self.old }
        requires named { AreOver pairs.now.names (images_at symbols.now images.now) }
        requires inside { AreInside (length symbols.now) images.now }
        requires below { AreBelow (length pairs.now.names) group.now }
        ensures read { OnOk result (HasReadOnly pairs.now (images_at symbols.now images.now) self.new) }
        ensures found { IfOk result (λ found. MatchOption found
            (are_numbers_disjoint pairs.now.statements (image_named pairs.now.names (images_at symbols.now images.now)) group.now ≡ true)
            (IsViolationOf pairs.now (images_at symbols.now images.now) group.now)) }
    {
        for i in 1..group.len() {
            if let Some(violation) = self.violation_with(
                pairs,
                symbols,
                images,
                group[i],
                &group[..i],
            )? {
                return Ok(Some(violation));
            }
        }
        Ok(None)
    }

    /// Returns x and one of the others in a list whose images are not disjoint, if there is one.
    ///
    /// Errors: those of `is_disjoint`.
    /// Cost: that of `is_disjoint`, and if there is one the symbols of the images of the others.
    fn violation_with(
        &mut self,
        pairs: &Pairs<'_>,
        symbols: &[u32],
        images: &ImageRanges,
        x: u32,
        others: &[u32],
    ) -> Result<Option<DisjointViolation>, AllocError>
        requires read { HasReadOnly pairs.now (images_at symbols.now images.now) self.old }
        requires named { AreOver pairs.now.names (images_at symbols.now images.now) }
        requires inside { AreInside (length symbols.now) images.now }
        requires number { x < length pairs.now.names }
        requires below { AreBelow (length pairs.now.names) others.now }
        ensures read { OnOk result (HasReadOnly pairs.now (images_at symbols.now images.now) self.new) }
        ensures found { IfOk result (λ found. MatchOption found
            (is_number_disjoint pairs.now.statements (image_named pairs.now.names (images_at symbols.now images.now)) others.now x ≡ true)
            (IsUnpairedWith pairs.now (images_at symbols.now images.now) x others.now)) }
    {
        let own = self.images.read_list(pairs, symbols, images, x, others)?;
        let Some((variable, other)) = first_unpaired(
            &mut self.row,
            pairs,
            self.images.variables_in(own),
            self.images.others(),
        )?
        else {
            return Ok(None);
        };
        let Some(first) = first_with(symbols, images, x, others, other) else {
            unreachable!();
        };
        Ok(Some(DisjointViolation {
            first,
            second: x,
            in_first_image: other,
            in_second_image: variable,
        }))
    }
}

/// Returns the first of the variables, and of the others, that are no pair of an active `$d`.
///
/// Errors: those of `read_row`. Cost: for each variable the symbols of the active `$d` that have
/// it, and the others, up to the first pair that is none.
fn first_unpaired(
    row: &mut SymbolSet,
    pairs: &Pairs<'_>,
    variables: &[u32],
    others: &[u32],
) -> Result<Option<(u32, u32)>, AllocError>
    requires variables { AreBelow (length pairs.now.names) variables.now }
    requires others { AreBelow (length pairs.now.names) others.now }
    ensures { IfOk result
        (λ found. MatchOption found
        (list_all (λ u. list_all (is_numbered_pair pairs.now u) others.now) variables.now ≡ true)
        (λ r. (has_number variables.now r.0 ≡ true) × (has_number others.now r.1 ≡ true) × (is_numbered_pair pairs.now r.0 r.1 ≡ false))) }
{
    for variable in variables {
        read_row(row, 0, pairs, *variable)?;
        if let Some(other) = first_outside(&*row, others) {
            return Ok(Some((*variable, other)));
        }
    }
    Ok(None)
}

/// Returns the first symbol of a list that is not in the set.
fn first_outside(set: &SymbolSet, list: &[u32]) -> Option<u32>
    ensures { MatchOption result (list_all (has_symbol set.now) list.now ≡ true)
        (λ w. (has_number list.now w ≡ true) × (has_symbol set.now w ≡ false)) }
{
    for symbol in list {
        if !set.has(*symbol) {
            return Some(*symbol);
        }
    }
    None
}

/// Returns the first of the others in a list than x whose image has a symbol.
fn first_with(
    symbols: &[u32],
    images: &ImageRanges,
    x: u32,
    others: &[u32],
    symbol: u32,
) -> Option<u32>
    requires { AreInside (length symbols.now) images.now }
    ensures { MatchOption result
        (list_any (λ y. not (x == y) && has_number (code_image (images_at symbols.now images.now) y) symbol) others.now
        ≡ false)
        (λ y. (has_number others.now y ≡ true) × ((x == y) ≡ false) × (has_number (code_image (images_at symbols.now images.now) y) symbol ≡ true)) }
{
    for other in others {
        if *other == x {
            continue;
        }
        if has_in_image(symbols, images, *other, symbol) {
            return Some(*other);
        }
    }
    None
}

/// Returns whether the image of y has a symbol.
fn has_in_image(symbols: &[u32], images: &ImageRanges, y: u32, symbol: u32) -> bool
    requires { AreInside (length symbols.now) images.now }
    ensures { result ≡ has_number (code_image (images_at symbols.now images.now) y) symbol }
{
    match images.get(y) {
        Some(range) => has_one(symbols_at(symbols, range), symbol),
        None => y == symbol,
    }
}

/// Returns whether the list has a symbol.
fn has_one(list: &[u32], symbol: u32) -> bool
    ensures { result ≡ has_number list.now symbol }
{
    list.iter().any(|other| *other == symbol)
}
