//! The variables of images, which are read once in a citation, and what reading them counts.
ghost use Rattle.std.specs.Prelude.{◌≡◌, ◌≤◌, ◌<◌, ◌+◌, ◌^◌, ◌++◌, ◌∷◌, [], length, OnOk, OnErr};
ghost use Rattle.std.specs.Prelude.{IfOk};
ghost use Rattle.frame.specs.Below.{AreBelow};
ghost use Rattle.frame.specs.NumberedWork.{numbered_variables};
ghost use Rattle.frame.specs.Substitution.{code_image};
ghost use Rattle.subst.specs.Images.{AreOver};
ghost use Rattle.subst.specs.Stored.VariableLists.{AreLists, Extends, HasCountedImages};
ghost use Rattle.subst.specs.Stored.VariableLists.{HasListsInside, IsListOf, compared_variables};
ghost use Rattle.subst.specs.SymbolRanges.{AreInside, images_at, symbols_in};

use crate::image_ranges::ImageRanges;
use crate::symbol_range::{SymbolRange, symbols_at};
use crate::symbol_set::SymbolSet;
use frame::Pairs;
use std::alloc::{AllocError, Global};

/// The variables of the images that were read in a citation, and what the citation counts so far.
#[derive(Drop)]
pub struct VariableLists {
    /// The variables of one image after those of another, each once for each image.
    variables: Vec<u32>,
    /// By the symbol that an image is of, where its variables stand in `variables`.
    lists: ImageRanges,
    /// The symbols that were met in the image that is being read.
    met: SymbolSet,
    /// The variables of the images with which one image is compared.
    others: Vec<u32>,
    /// What the citation counts so far, in symbols.
    pub(crate) work: u64,
}

impl VariableLists {
    /// Returns the lists of no image. Does not allocate.
    pub(crate) fn new(alloc: Global) -> VariableLists
        ensures lists { result.lists ≡ [] }
        ensures work { result.work ≡ 0 }
    {
        VariableLists {
            variables: Vec::new(alloc),
            lists: ImageRanges::new(alloc),
            met: SymbolSet::new(alloc),
            others: Vec::new(alloc),
            work: 0,
        }
    }

    /// Removes all lists and counts from 0, in constant time. Keeps the memory.
    pub(crate) fn clear(&mut self)
        ensures lists { self.new.lists ≡ [] }
        ensures work { self.new.work ≡ 0 }
    {
        self.lists.clear();
        self.variables.clear();
        self.work = 0;
    }

    /// Returns the variables in a range.
    #[inline(always)]
    pub(crate) fn variables_in(&self, range: SymbolRange) -> &[u32]
        requires { (range.start ≤ range.end) × (range.end ≤ length self.now.variables.items) }
        ensures { result.now ≡ symbols_in self.now.variables.items range }
    {
        symbols_at(&self.variables, range)
    }

    /// Returns the variables that `read_list` listed.
    #[inline(always)]
    pub(crate) fn others(&self) -> &[u32]
        ensures { result.now ≡ self.now.others.items }
    {
        &self.others
    }

    /// Reads the images of x and of the others in a list, those that were not read in this
    /// citation. Returns where the variables of the image of x stand, and lists those of the others
    /// than x, unless the image of x has none.
    ///
    /// Errors, cost: those of `variables_of` for each; the variables that are listed.
    pub(crate) fn read_list(
        &mut self,
        pairs: &Pairs<'_>,
        symbols: &[u32],
        images: &ImageRanges,
        x: u32,
        others: &[u32],
    ) -> Result<SymbolRange, AllocError>
        requires lists { AreLists pairs.now (images_at symbols.now images.now) self.old }
        requires named { AreOver pairs.now.names (images_at symbols.now images.now) }
        requires inside { AreInside (length symbols.now) images.now }
        requires number { x < length pairs.now.names }
        requires below { AreBelow (length pairs.now.names) others.now }
        ensures lists { OnOk result (AreLists pairs.now (images_at symbols.now images.now) self.new) }
        ensures ranges { HasListsInside self.new }
        ensures counted { OnOk result
            (HasCountedImages (images_at symbols.now images.now) (x ∷ others.now) self.old self.new) }
        ensures range { IfOk result
            (IsListOf pairs.now self.new.variables.items (code_image (images_at symbols.now images.now) x)) }
        ensures others { OnOk result
            (self.new.others.items ≡ compared_variables pairs.now (images_at symbols.now images.now) x others.now) }
    {
        self.others.clear();
        let own = self.variables_of(pairs, symbols, images, x)?;
        for other in others {
            let range = self.variables_of(pairs, symbols, images, *other)?;
            if own.start == own.end {
                continue;
            }
            if *other == x {
                continue;
            }
            self.others
                .extend_from_slice(symbols_at(&self.variables, range))?;
        }
        Ok(own)
    }

    /// Returns where the variables of the image of a symbol stand. Reads the image if it was not
    /// read in this citation, and counts its symbols.
    ///
    /// Errors: an allocation fails, all variables are more than 4,294,967,295, or the count would
    /// be 2^64 or more.
    /// Cost: once in a citation the symbols of the image, and `Pairs::variable` for each different
    /// one; else a look-up.
    fn variables_of(
        &mut self,
        pairs: &Pairs<'_>,
        symbols: &[u32],
        images: &ImageRanges,
        symbol: u32,
    ) -> Result<SymbolRange, AllocError>
        requires lists { AreLists pairs.now (images_at symbols.now images.now) self.old }
        requires named { AreOver pairs.now.names (images_at symbols.now images.now) }
        requires inside { AreInside (length symbols.now) images.now }
        requires number { symbol < length pairs.now.names }
        ensures lists { OnOk result (AreLists pairs.now (images_at symbols.now images.now) self.new) }
        ensures kept { OnOk result (Extends self.old.variables.items self.new.variables.items) }
        ensures ranges { HasListsInside self.new }
        ensures others { self.new.others ≡ self.old.others }
        ensures counted { OnOk result
            (HasCountedImages (images_at symbols.now images.now) (symbol ∷ []) self.old self.new) }
        ensures range { IfOk result
            (IsListOf pairs.now self.new.variables.items (code_image (images_at symbols.now images.now) symbol)) }
    {
        if let Some(range) = self.lists.get(symbol) {
            return Ok(range);
        }
        let start = self.variables.len();
        let own = [symbol];
        self.read(pairs, image_of(symbols, images, symbol, &own))?;
        let Ok(end) = u32::try_from(self.variables.len()) else {
            return Err(AllocError);
        };
        let start = start as u32;
        let range = SymbolRange { start, end };
        self.lists.set(symbol, range)?;
        Ok(range)
    }

    /// Appends the variables among the symbols of an image, each once, and counts the symbols.
    fn read(&mut self, pairs: &Pairs<'_>, symbols: &[u32]) -> Result<(), AllocError>
        requires { AreBelow (length pairs.now.names) symbols.now }
        ensures lists { self.new.lists ≡ self.old.lists }
        ensures others { self.new.others ≡ self.old.others }
        ensures kept { Extends self.old.variables.items self.new.variables.items }
        ensures counted { OnOk result (self.new.work ≡ self.old.work + length symbols.now) }
        ensures added { OnOk result
            (self.new.variables.items ≡ self.old.variables.items ++ numbered_variables pairs.now symbols.now) }
    {
        self.work = sum_of_work(self.work, symbols.len())?;
        self.met.clear();
        for symbol in symbols {
            if self.met.has(*symbol) {
                continue;
            }
            self.met.add(*symbol)?;
            if pairs.variable(*symbol) {
                self.variables.push(*symbol)?;
            }
        }
        Ok(())
    }
}

/// Returns the image of a symbol. Where it has none, that is the symbol on its own, which `own`
/// has.
#[inline(always)]
fn image_of<'a>(symbols: &'a [u32], images: &ImageRanges, symbol: u32, own: &'a [u32]) -> &'a [u32]
    requires inside { AreInside (length symbols.now) images.now }
    requires own { own.now ≡ symbol ∷ [] }
    ensures { result.now ≡ code_image (images_at symbols.now images.now) symbol }
{
    match images.get(symbol) {
        Some(range) => symbols_at(symbols, range),
        None => own,
    }
}

/// Returns what is counted with so many symbols more.
///
/// Errors: that is 2^64 or more.
#[inline(always)]
pub(crate) fn sum_of_work(work: u64, more: usize) -> Result<u64, AllocError>
    ensures ok { IfOk result (λ sum. sum ≡ work + more) }
    ensures err { OnErr result (2 ^ 64 ≤ work + more) }
{
    match work.checked_add(more as u64) {
        Some(sum) => Ok(sum),
        None => Err(AllocError),
    }
}
