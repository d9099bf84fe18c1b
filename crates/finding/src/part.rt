//! The parts of a pattern.

/// A part of a pattern of symbols.
#[derive(Clone, Copy, Debug, Drop)]
pub(crate) enum Part<'a> {
    /// This symbol.
    Symbol(&'a [u8]),
    /// `$?`: any one symbol.
    AnySymbol,
    /// `$*`: any number of symbols, including none.
    AnySequence,
}
