//! Compares symbols of a buffer with an expression with all images substituted, without writing the
//! latter.
ghost use Rattle.std.specs.Prelude.{◌≡◌, ℕ, ◌∷◌, ◌++◌, ◌↔◌, ◌<◌, ◌≤◌, [], List, length, take};
ghost use Rattle.std.specs.Prelude.{slice_range, IfSome, IfNone, IsTrue};
ghost use Rattle.frame.specs.Substitution.{code_apply};
ghost use Rattle.subst.specs.SymbolRanges.{AreInside, image_at, images_at, symbols_in};

use crate::image_ranges::{ImageRanges, ImageTable};
use crate::symbol_range::SymbolRange;
use std::simd::prelude::*;

/// The number of symbols that are compared at once.
const LANES: usize = 16;

/// Returns the length of a common prefix of two lists, at most `LANES`.
#[inline(always)]
fn common_prefix_len(left: &[u32], right: &[u32]) -> usize
    requires left { 16 ≤ length left.now }
    requires right { 16 ≤ length right.now }
    ensures { take result left.now ≡ take result right.now }
{
    let differ = u32x16::from_slice(left).simd_ne(u32x16::from_slice(right));
    let mask = differ.to_bitmask();
    if mask == 0 {
        LANES
    } else {
        mask.trailing_zeros() as usize
    }
}

/// Returns whether the first `len` symbols of two lists agree. Compares up to `LANES` symbols at
/// once if both lists have `LANES` symbols.
#[inline(always)]
fn have_same_prefix(left: &[u32], right: &[u32], len: usize) -> bool
    requires left { len ≤ length left.now }
    requires right { len ≤ length right.now }
    ensures { IsTrue result ↔ (take len left.now ≡ take len right.now) }
{
    let room = left.len().min(right.len());
    if len <= LANES && LANES <= room && len <= common_prefix_len(left, right) {
        return true;
    }
    left[..len] == right[..len]
}

/// Returns the index after the image in a range if the symbols from `at` up to `end` begin with
/// that image, else `None`.
#[inline(always)]
fn skip_range(symbols: &[u32], range: SymbolRange, at: usize, end: usize) -> Option<usize>
    requires image { (range.start ≤ range.end) × (range.end ≤ length symbols.now) }
    requires rest { (at ≤ end) × (end ≤ length symbols.now) }
    ensures some { IfSome result
        (λ next. (next ≤ end)
        × (slice_range symbols.now at end ≡ symbols_in symbols.now range ++ slice_range symbols.now next end)) }
    ensures none { IfNone result
        ((more : List ℕ) → slice_range symbols.now at end ≡ symbols_in symbols.now range ++ more → ⊥) }
{
    let len = (range.end - range.start) as usize;
    if end - at < len {
        return None;
    }
    if have_same_prefix(&symbols[range.start as usize..], &symbols[at..], len) {
        Some(at + len)
    } else {
        None
    }
}

/// Returns the index after the image of a symbol if the symbols from `at` up to `end` begin with
/// that image, else `None`.
#[inline(always)]
fn skip_image(
    symbols: &[u32],
    images: &ImageTable<'_>,
    symbol: u32,
    at: usize,
    end: usize,
) -> Option<usize>
    requires inside { AreInside (length symbols.now) images.now }
    requires rest { (at ≤ end) × (end ≤ length symbols.now) }
    ensures some { IfSome result
        (λ next. (next ≤ end)
        × (slice_range symbols.now at end ≡ image_at symbols.now images.now symbol
        ++ slice_range symbols.now next end)) }
    ensures none { IfNone result
        ((more : List ℕ) → slice_range symbols.now at end ≡ image_at symbols.now images.now symbol ++ more → ⊥) }
{
    match images.get(symbol) {
        Some(range) => skip_range(symbols, range, at, end),
        None if at < end && symbols[at] == symbol => Some(at + 1),
        None => None,
    }
}

/// Returns whether the symbols in a range are the expression with all images substituted. The
/// images are ranges of the same list.
#[inline(never)]
pub(crate) fn matches(
    symbols: &[u32],
    images: &ImageRanges,
    expr: &[u32],
    range: SymbolRange,
) -> bool
    requires inside { AreInside (length symbols.now) images.now }
    requires range { (range.start ≤ range.end) × (range.end ≤ length symbols.now) }
    ensures { IsTrue result ↔ (symbols_in symbols.now range ≡ code_apply (images_at symbols.now images.now) expr.now) }
{
    let table = images.table();
    let end = range.end as usize;
    let mut at = range.start as usize;
    for symbol in expr {
        match skip_image(symbols, &table, *symbol, at, end) {
            Some(next) => at = next,
            None => return false,
        }
    }
    at == end
}
