//! Images of symbols, substituted all at once.
ghost use Rattle.std.specs.Prelude.{◌≡◌, ℕ, [], ◌∷◌, ◌==◌, ◌++◌, ◌+◌, ◌≤◌, ◌↔◌, take, IsTrue, IfOk};
ghost use Rattle.std.specs.Prelude.{if◌then◌else◌, length, OnOk, OnErr, IfSome, IfNone};
ghost use Rattle.frame.specs.Substitution.{code_apply, code_image};
ghost use Rattle.subst.specs.declared.buffer.TheConstants.{SYMBOLS_LIMIT};

use crate::buffer::{Buffer, SYMBOLS_LIMIT};
use crate::image_ranges::ImageRanges;
use crate::symbol_range::{range_between, symbols_at};
use crate::writing::applied_len;
use std::alloc::{AllocError, Global};
use std::marker::Model;

/// A table of images of symbols. A symbol without an image stays itself.
///
/// Contracts see the symbols with their images. The images are in one buffer, including those that
/// were replaced.
/// Cost: an image is found by one look-up, in a table about twice as long as the greatest number
/// that was set.
/// Source: Metamath, 4.1.
#[derive(Drop)]
pub struct Subst {
    /// The symbols of all images.
    symbols: Buffer,
    /// The range of each image.
    images: ImageRanges,
}

impl Model for Subst {
    ghost use Rattle.std.specs.Prelude.{ℕ, List, length};
    ghost use Rattle.subst.specs.SymbolRanges.{images_at, AreInside};

    ghost Value = { List (ℕ × List ℕ) };

    ghost view = { λ a. images_at a.symbols a.images };

    ghost invariant = { λ a. AreInside (length a.symbols) a.images };
}

impl Subst {
    /// Returns a table without images. Does not allocate.
    pub fn new(alloc: Global) -> Subst
        ensures { result ≡ [] }
    {
        Subst {
            symbols: Buffer::new(alloc),
            images: ImageRanges::new(alloc),
        }
    }

    /// Sets the image of a symbol, and replaces an earlier one.
    ///
    /// Errors: an allocation fails, or the images that were set, including those replaced, would
    /// have more than `SYMBOLS_LIMIT` symbols together. All images are then unchanged.
    /// Cost: the symbols of the image; a copy of the table or of the buffer that has to grow.
    pub fn set(&mut self, symbol: u32, image: &[u32]) -> Result<(), AllocError>
        ensures ok { OnOk result
            ((x : ℕ) → code_image self.new x ≡ (if x == symbol then image.now else code_image self.old x)) }
        ensures same { OnErr result (self.new ≡ self.old) }
    {
        let start = self.symbols.len();
        if image.len() > SYMBOLS_LIMIT - start {
            return Err(AllocError);
        }
        self.symbols.extend(image)?;
        let range = range_between(start, self.symbols.len());
        match self.images.set(symbol, range) {
            Ok(()) => Ok(()),
            Err(refused) => {
                self.symbols.truncate(start);
                Err(refused)
            }
        }
    }

    /// Returns the image of a symbol, if it has one. Cost: a constant.
    pub fn image(&self, symbol: u32) -> Option<&[u32]>
        ensures some { IfSome result (λ image. image.now ≡ code_image self.now symbol) }
        ensures none { IfNone result (code_image self.now symbol ≡ symbol ∷ []) }
    {
        let range = self.images.get(symbol)?;
        Some(symbols_at(self.symbols.as_slice(), range))
    }
}

/// Returns the expression with all images substituted at once.
///
/// Errors: an allocation fails.
/// Cost: the symbols read and written, each once.
/// Source: Metamath, 4.1: nothing is substituted in the images themselves.
pub fn apply(alloc: Global, subst: &Subst, expr: &[u32]) -> Result<Vec<u32>, AllocError>
    ensures { IfOk result (λ applied. applied.items ≡ code_apply subst.now expr.now) }
{
    let mut applied = Vec::new(alloc);
    append_applied(subst, expr, &mut applied)?;
    Ok(applied)
}

/// Appends the expression with all images substituted.
///
/// Errors: an allocation fails; a part may have been appended.
pub(crate) fn append_applied(
    subst: &Subst,
    expr: &[u32],
    out: &mut Vec<u32>,
) -> Result<(), AllocError>
    ensures ok { OnOk result (out.new.items ≡ out.old.items ++ code_apply subst.now expr.now) }
    ensures kept { take (length out.old.items) out.new.items ≡ out.old.items }
{
    for symbol in expr {
        match subst.image(*symbol) {
            Some(image) => out.extend_from_slice(image)?,
            None => out.push(*symbol)?,
        }
    }
    Ok(())
}

/// Returns whether the buffer has room for the expression with all images substituted.
///
/// Cost: one look-up for each symbol of the expression; nothing is written.
pub fn has_room(subst: &Subst, expr: &[u32], buffer: &Buffer) -> bool
    ensures { IsTrue result ↔ (length buffer.now + length (code_apply subst.now expr.now) ≤ SYMBOLS_LIMIT) }
{
    let room = SYMBOLS_LIMIT - buffer.len();
    applied_len(subst.symbols.as_slice(), &subst.images, expr, room).is_some()
}
