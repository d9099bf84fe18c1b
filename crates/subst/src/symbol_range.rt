//! Ranges of a buffer of symbols.
ghost use Rattle.std.specs.Prelude.{◌≡◌, ◌≤◌, length};
ghost use Rattle.subst.specs.SymbolRanges.{symbols_in};
ghost use Rattle.subst.specs.declared.buffer.TheConstants.{SYMBOLS_LIMIT};

/// A range of a buffer of symbols: from `start` up to, and not including, `end`.
#[derive(Clone, Copy, Drop)]
pub struct SymbolRange {
    pub start: u32,
    pub end: u32,
}

/// Returns the symbols in a range.
pub fn symbols_at(symbols: &[u32], range: SymbolRange) -> &[u32]
    requires { (range.start ≤ range.end) × (range.end ≤ length symbols.now) }
    ensures { result.now ≡ symbols_in symbols.now range }
{
    &symbols[range.start as usize..range.end as usize]
}

/// Returns the range from `start` up to, and not including, `end`. Both are within the bound of a
/// buffer.
pub fn range_between(start: usize, end: usize) -> SymbolRange
    requires { (start ≤ SYMBOLS_LIMIT) × (end ≤ SYMBOLS_LIMIT) }
    ensures { (result.start ≡ start) × (result.end ≡ end) }
{
    SymbolRange {
        start: start as u32,
        end: end as u32,
    }
}
