//! A bounded list of symbols.
ghost use Rattle.std.specs.Prelude.{◌≡◌, [], ◌++◌, ◌+◌, ◌≤◌, ◌↔◌, length, take, IfOk, OnOk, OnErr};
ghost use Rattle.std.specs.Prelude.{IsTrue};
ghost use Rattle.frame.specs.Substitution.{code_apply};
ghost use Rattle.subst.specs.Stored.Written.{Appends};
ghost use Rattle.subst.specs.SymbolRanges.{AreInside, images_at, symbols_in};

use crate::copies::put_expr;
use crate::image_ranges::ImageRanges;
use crate::images::{Subst, append_applied};
use crate::matching::matches;
use crate::symbol_range::SymbolRange;
use crate::writing::{applied_len, make_room, write_applied};
use std::alloc::{AllocError, Global};
use std::marker::Model;
use std::ops::Range;

/// The most symbols that a buffer holds.
pub const SYMBOLS_LIMIT: usize = 67_108_864;

/// A list of at most `SYMBOLS_LIMIT` symbols.
#[derive(Drop)]
pub struct Buffer {
    /// The symbols, followed by room to spare.
    symbols: Vec<u32>,
    /// The number of symbols.
    len: usize,
}

impl Model for Buffer {
    ghost use Rattle.std.specs.Prelude.{ℕ, List, length, take, ◌≤◌};
    ghost use Rattle.subst.specs.declared.buffer.TheConstants.{SYMBOLS_LIMIT};

    ghost Value = { List ℕ };

    ghost view = { λ a. take a.len a.symbols.items };

    ghost invariant = { λ a. (a.len ≤ length a.symbols.items) × (a.len ≤ SYMBOLS_LIMIT) };
}

impl Buffer {
    /// Returns an empty buffer. Does not allocate.
    pub fn new(alloc: Global) -> Buffer
        ensures { result ≡ [] }
    {
        Buffer {
            symbols: Vec::new(alloc),
            len: 0,
        }
    }

    /// Returns the number of symbols.
    pub fn len(&self) -> usize
        ensures len { result ≡ length self.now }
        ensures bound { result ≤ SYMBOLS_LIMIT }
    {
        self.len
    }

    /// Returns the symbols.
    pub fn as_slice(&self) -> &[u32]
        ensures symbols { result.now ≡ self.now }
        ensures bound { length self.now ≤ SYMBOLS_LIMIT }
    {
        &self.symbols[..self.len]
    }

    /// Returns whether the symbols in a range are the expression with all images substituted. The
    /// images are ranges of this buffer too.
    ///
    /// Cost: a look-up for each symbol of the expression, and the symbols that agree, each once;
    /// nothing is written.
    #[inline(always)]
    pub fn matches(&self, images: &ImageRanges, expr: &[u32], range: SymbolRange) -> bool
        requires inside { AreInside (length self.now) images.now }
        requires range { (range.start ≤ range.end) × (range.end ≤ length self.now) }
        ensures { IsTrue result ↔ (symbols_in self.now range ≡ code_apply (images_at self.now images.now) expr.now) }
    {
        matches(&self.symbols, images, expr, range)
    }

    /// Appends symbols.
    ///
    /// Errors: an allocation fails; the buffer is unchanged. Cost: the symbols that are appended; a
    /// copy of the buffer if it has to grow.
    pub fn extend(&mut self, more: &[u32]) -> Result<(), AllocError>
        requires { length self.old + length more.now ≤ SYMBOLS_LIMIT }
        ensures added { OnOk result (self.new ≡ self.old ++ more.now) }
        ensures same { OnErr result (self.new ≡ self.old) }
    {
        if self.symbols.len() - self.len < more.len() {
            make_room(&mut self.symbols, self.len, more.len())?;
        }
        put_expr(&mut self.symbols, self.len, more);
        self.len += more.len();
        Ok(())
    }

    /// Truncates to the first `len` symbols. Keeps the memory.
    pub fn truncate(&mut self, len: usize)
        ensures { self.new ≡ take len self.old }
    {
        self.len = self.len.min(len);
    }

    /// Appends the expression with all images substituted at once, or returns `false` if that has
    /// more symbols than the limit. The images are ranges of this buffer.
    ///
    /// Errors: an allocation fails; the buffer is unchanged.
    /// Cost: the expression, and at most as many symbols as the limit; twice, and a copy of the
    /// buffer, if it has to grow.
    #[inline(always)]
    pub fn add_applied(
        &mut self,
        images: &ImageRanges,
        expr: &[u32],
        limit: usize,
    ) -> Result<bool, AllocError>
        requires inside { AreInside (length self.old) images.now }
        requires bound { length self.old + limit ≤ SYMBOLS_LIMIT }
        ensures ok { IfOk result
            (λ ok. Appends ok limit self.old self.new (code_apply (images_at self.old images.now) expr.now)) }
        ensures err { OnErr result (self.new ≡ self.old) }
    {
        let Some(end) = write_applied(&mut self.symbols, self.len, limit, images, expr) else {
            return self.add_growing(images, expr, limit);
        };
        self.len = end;
        Ok(true)
    }

    /// Appends the expression after making room for it, unless it is longer than the limit.
    #[cold]
    #[inline(never)]
    fn add_growing(
        &mut self,
        images: &ImageRanges,
        expr: &[u32],
        limit: usize,
    ) -> Result<bool, AllocError>
        requires inside { AreInside (length self.old) images.now }
        requires bound { length self.old + limit ≤ SYMBOLS_LIMIT }
        ensures ok { IfOk result
            (λ ok. Appends ok limit self.old self.new (code_apply (images_at self.old images.now) expr.now)) }
        ensures err { OnErr result (self.new ≡ self.old) }
    {
        let Some(len) = applied_len(self.as_slice(), images, expr, limit) else {
            return Ok(false);
        };
        let room = len + expr.len();
        make_room(&mut self.symbols, self.len, room)?;
        let Some(end) = write_applied(&mut self.symbols, self.len, room, images, expr) else {
            unreachable!();
        };
        self.len = end;
        Ok(true)
    }
}

/// Appends the expression with all images substituted at once, and returns the range of the result.
///
/// Errors: an allocation fails; the buffer is unchanged.
/// Cost: the symbols read and written, each once.
pub fn apply_into(
    subst: &Subst,
    expr: &[u32],
    buffer: &mut Buffer,
) -> Result<Range<usize>, AllocError>
    requires { length buffer.old + length (code_apply subst.now expr.now) ≤ SYMBOLS_LIMIT }
    ensures added { OnOk result (buffer.new ≡ buffer.old ++ code_apply subst.now expr.now) }
    ensures range { IfOk result (λ range. (range.start ≡ length buffer.old) × (range.end ≡ length buffer.new)) }
    ensures same { OnErr result (buffer.new ≡ buffer.old) }
{
    let start = buffer.len;
    buffer.symbols.truncate(start);
    append_applied(subst, expr, &mut buffer.symbols)?;
    buffer.len = buffer.symbols.len();
    Ok(start..buffer.len)
}
