//! The disjoint variable condition for the images of one citation, and what it counts.
ghost use Rattle.std.specs.Prelude.{◌≡◌, ◌<◌, ◌+◌, ◌∷◌, [], ℕ, List, length, sum_by, IfErr, IfOk};
ghost use Rattle.std.specs.Prelude.{OnOk, IsTrue};
ghost use Rattle.std.specs.List.{list_all};
ghost use Rattle.frame.specs.Below.{AreBelow};
ghost use Rattle.frame.specs.ListsOfPairs.{is_numbered_pair};
ghost use Rattle.frame.specs.NumberedWork.{numbered_row};
ghost use Rattle.frame.specs.Parts.{Numbered};
ghost use Rattle.frame.specs.Substitution.{CodeImages};
ghost use Rattle.names.specs.Codes.{AreDistinct};
ghost use Rattle.subst.specs.Images.{AreOver, is_numbered_list_disjoint};
ghost use Rattle.subst.specs.ReadImages.{HasCounted, HasRead, HasReadOnly, IsPastList, is_over};
ghost use Rattle.subst.specs.Stored.VariableLists.{IsRowOf};
ghost use Rattle.subst.specs.SymbolRanges.{AreInside, images_at};

use crate::image_ranges::ImageRanges;
use crate::stop::Stop;
use crate::symbol_set::SymbolSet;
use crate::variable_lists::{VariableLists, sum_of_work};
use frame::Pairs;
use std::alloc::{AllocError, Global};
use std::marker::Model;

/// Decides the disjoint variable condition for the images of one citation after another, and counts
/// its work. Contracts see the images that were read in this citation, by number, each with its
/// variables, the count, and how much it may be. What it keeps between citations is memory alone.
#[derive(Drop)]
pub struct DisjointImages {
    /// The variables of the images that were read in this citation, and the count.
    pub(crate) images: VariableLists,
    /// The variables that are in an active `$d` with one variable.
    pub(crate) row: SymbolSet,
    /// How much this citation may count, if there is a limit.
    left: Option<u64>,
}

impl Model for DisjointImages {
    ghost use Rattle.subst.specs.ReadImages.{ReadImages};
    ghost use Rattle.subst.specs.Stored.VariableLists.{HasListsInside, read_images};

    ghost Value = { ReadImages };

    ghost view = { λ a. read_images a.left a.images };

    ghost invariant = { λ a. HasListsInside a.images };
}

impl DisjointImages {
    /// Returns a value without memory. Does not allocate.
    pub fn new(alloc: Global) -> DisjointImages
        ensures none { HasRead [] result }
        ensures work { result.work ≡ 0 }
    {
        DisjointImages {
            images: VariableLists::new(alloc),
            row: SymbolSet::new(alloc),
            left: None,
        }
    }

    /// Frees the memory.
    pub fn release(&mut self, alloc: Global) {
        *self = DisjointImages::new(alloc);
    }

    /// Begins a citation, which may count this much, if there is a limit: forgets the images of the
    /// one before, and counts from 0. Takes constant time.
    pub fn begin_citation(&mut self, left: Option<u64>)
        ensures read { (v : Numbered) (σ : CodeImages) → HasReadOnly v σ self.new }
        ensures none { HasRead [] self.new }
        ensures work { self.new.work ≡ 0 }
        ensures left { self.new.left ≡ left }
    {
        self.left = left;
        self.images.clear();
    }

    /// Returns what this citation counts so far: the symbols of each image that was read, and for
    /// each call of `is_disjoint` the symbols and variables that it compared.
    pub fn work(&self) -> u64
        ensures { result ≡ self.now.work }
    {
        self.images.work
    }

    /// Returns whether the image of x is disjoint from those of the others in a list, at the
    /// statement of the pairs: no variable is in both, and each pair of variables, one from each,
    /// is in an active `$d`. Counts the symbols of the images that were not read in this citation,
    /// and for each variable of the image of x its row, which is the symbols of the active `$d`
    /// that have it, and the variables of the other images. All of them are read, also behind two
    /// images that are not disjoint, unless the count is past the limit behind a row. The images
    /// are ranges of the symbols, the same since `begin_citation`.
    ///
    /// Errors: `Stop::TooCostly` there; `Stop::Memory` if an allocation fails, the images have more
    /// than 4,294,967,295 variables, or the count would be 2^64 or more.
    /// Cost: a look-up for each of the others, and what is counted.
    /// Source: Metamath, 4.2.6; the count is this project's profile (docs/COSTS.md).
    pub fn is_disjoint(
        &mut self,
        pairs: &Pairs<'_>,
        symbols: &[u32],
        images: &ImageRanges,
        x: u32,
        others: &[u32],
    ) -> Result<bool, Stop>
        requires read { HasReadOnly pairs.now (images_at symbols.now images.now) self.old }
        requires distinct { AreDistinct pairs.now.names }
        requires named { AreOver pairs.now.names (images_at symbols.now images.now) }
        requires inside { AreInside (length symbols.now) images.now }
        requires number { x < length pairs.now.names }
        requires below { AreBelow (length pairs.now.names) others.now }
        ensures read { OnOk result (HasReadOnly pairs.now (images_at symbols.now images.now) self.new) }
        ensures counted { OnOk result
            (HasCounted pairs.now (images_at symbols.now images.now) (x ∷ others.now) self.old self.new) }
        ensures left { self.new.left ≡ self.old.left }
        ensures costly { IfErr result (λ stop. stop ≡ Stop.TooCostly
            → IsPastList pairs.now (images_at symbols.now images.now) (x ∷ others.now) self.old) }
        ensures disjoint { IfOk result
            (λ ok. ok ≡ is_numbered_list_disjoint pairs.now (images_at symbols.now images.now) (x ∷ others.now)) }
    {
        let own = self.images.read_list(pairs, symbols, images, x, others)?;
        let mut work = self.images.work;
        let all = are_pairs(
            &mut self.row,
            &mut work,
            self.left,
            pairs,
            self.images.variables_in(own),
            self.images.others(),
        );
        self.images.work = work;
        all
    }
}

/// Returns whether each of the variables is in an active `$d` with each of the others, and is none
/// of them. Adds to the work, for each variable, its row and the others, and stops behind the one
/// with which it is more than what is left.
///
/// Errors: it stops there; an allocation fails, or the work would be 2^64 or more. Cost: what is
/// counted.
fn are_pairs(
    row: &mut SymbolSet,
    work: &mut u64,
    left: Option<u64>,
    pairs: &Pairs<'_>,
    variables: &[u32],
    others: &[u32],
) -> Result<bool, Stop>
    requires variables { AreBelow (length pairs.now.names) variables.now }
    requires others { AreBelow (length pairs.now.names) others.now }
    ensures counted { OnOk result
        (work.new ≡ work.old + sum_by (λ u. numbered_row pairs.now u + length others.now) variables.now) }
    ensures costly { IfErr result (λ stop. stop ≡ Stop.TooCostly
        → IsTrue (is_over left
        (work.old + sum_by (λ u. numbered_row pairs.now u + length others.now) variables.now))) }
    ensures pairs { IfOk result
        (λ ok. ok ≡ list_all (λ u. list_all (is_numbered_pair pairs.now u) others.now) variables.now) }
{
    let mut all = true;
    for variable in variables {
        let sum = read_row(row, *work, pairs, *variable)?;
        *work = sum_of_work(sum, others.len())?;
        if is_more(*work, left) {
            return Err(Stop::TooCostly);
        }
        all &= row.has_all(others);
    }
    Ok(all)
}

/// Returns whether the work is more than what is left, if there is a limit.
#[inline(always)]
fn is_more(work: u64, left: Option<u64>) -> bool
    ensures { result ≡ is_over left work }
{
    match left {
        Some(left) => left < work,
        None => false,
    }
}

/// Makes the row of a variable the set: the other symbols of the active `$d` that have it. Returns
/// the work with the symbols of these `$d`.
///
/// Errors: an allocation fails, or the work would be 2^64 or more. Cost: these symbols.
pub(crate) fn read_row(
    row: &mut SymbolSet,
    work: u64,
    pairs: &Pairs<'_>,
    variable: u32,
) -> Result<u64, AllocError>
    requires { variable < length pairs.now.names }
    ensures row { OnOk result (IsRowOf pairs.now variable row.new) }
    ensures counted { IfOk result (λ sum. sum ≡ work + numbered_row pairs.now variable) }
{
    row.clear();
    let mut work = work;
    let mut disjoints = pairs.disjoints_with(variable);
    while let Some(list) = disjoints.next() {
        work = sum_of_work(work, list.len())?;
        row.add_all(list)?;
    }
    row.remove(variable);
    Ok(work)
}
