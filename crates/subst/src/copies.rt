//! Copies symbols within one buffer, many at once.
ghost use Rattle.std.specs.Prelude.{◌≡◌, ◌+◌, ◌<◌, ◌≤◌, ◌++◌, ◌∷◌, [], length, take, drop, IfSome};
ghost use Rattle.std.specs.Prelude.{IfNone};
ghost use Rattle.subst.specs.Stored.Written.{IsWritten};
ghost use Rattle.subst.specs.SymbolRanges.{symbols_in};

use crate::symbol_range::SymbolRange;
use std::simd::prelude::*;

/// The number of symbols that are copied at once. Up to this many are overwritten after the end of
/// a copy.
pub const LANES: usize = 16;

/// Copies the `len` symbols from `from` on, all of them before `at`, to `at`. A copy of at most
/// `LANES` symbols does not enter the loop.
#[inline(always)]
fn copy_run(symbols: &mut [u32], from: usize, len: usize, at: usize)
    requires before { from + len ≤ at }
    requires room { at + len + 16 ≤ length symbols.old }
    ensures copied { take (at + len) symbols.new ≡ take at symbols.old ++ take len (drop from symbols.old) }
    ensures count { length symbols.new ≡ length symbols.old }
{
    u32x16::from_slice(&symbols[from..]).copy_to_slice(&mut symbols[at..]);
    let mut done = LANES;
    while done < len {
        u32x16::from_slice(&symbols[from + done..]).copy_to_slice(&mut symbols[at + done..]);
        done += LANES;
    }
}

/// Copies the symbols in a range to `at`, and returns where the copy ends. Returns `None` if that
/// would be after `last`.
#[inline(always)]
pub fn copy_range(symbols: &mut [u32], at: usize, last: usize, range: SymbolRange) -> Option<usize>
    requires range { (range.start ≤ range.end) × (range.end ≤ at) }
    requires inside { at ≤ length symbols.old }
    requires room { last + 16 ≤ length symbols.old }
    ensures some { IfSome result (IsWritten symbols.old symbols.new at (symbols_in (take at symbols.old) range)) }
    ensures within { IfSome result (λ end. end ≤ last) }
    ensures none { IfNone result (last < at + length (symbols_in (take at symbols.old) range)) }
    ensures kept { take at symbols.new ≡ take at symbols.old }
    ensures count { length symbols.new ≡ length symbols.old }
{
    let len = (range.end - range.start) as usize;
    if at + len > last {
        return None;
    }
    copy_run(symbols, range.start as usize, len, at);
    Some(at + len)
}

/// Writes a symbol at `at`, and returns the index after it.
#[inline(always)]
pub fn put_symbol(symbols: &mut [u32], at: usize, symbol: u32) -> usize
    requires { at < length symbols.old }
    ensures written { IsWritten symbols.old symbols.new at (symbol ∷ []) result }
    ensures kept { take at symbols.new ≡ take at symbols.old }
    ensures count { length symbols.new ≡ length symbols.old }
{
    symbols[at] = symbol;
    at + 1
}

/// Writes an expression at `at`. One of two symbols, such as that of a `$f`, needs no call to copy.
pub fn put_expr(symbols: &mut [u32], at: usize, expr: &[u32])
    requires { at + length expr.now ≤ length symbols.old }
    ensures written { take (at + length expr.now) symbols.new ≡ take at symbols.old ++ expr.now }
    ensures count { length symbols.new ≡ length symbols.old }
{
    if let [first, second] = expr {
        symbols[at] = *first;
        symbols[at + 1] = *second;
    } else {
        symbols[at..at + expr.len()].copy_from_slice(expr);
    }
}
