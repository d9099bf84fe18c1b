//! Why a text cannot be split into tokens.
ghost use Rattle.std.specs.Prelude.{◌≡◌};

use std::alloc::AllocError;

/// Why a text cannot be split into tokens. Offsets count bytes from 0.
#[derive(Clone, Copy, Debug, Drop, PartialEq, Eq)]
pub enum LexFault {
    /// The text has a byte that no text may have: the offset of the first one.
    Text { offset: usize },
    /// Its comments are malformed: the offset of the first token `$(` inside or `$)` outside a
    /// comment, or else of the `$(` that is never closed.
    Comment { offset: usize },
    /// An allocation failed.
    Memory,
}

impl From<AllocError> for LexFault {
    ghost use Rattle.mm_lex.specs.declared.fault.LexFault.TheVariants.{Memory};

    ghost from_gives = { λ _ fault. fault ≡ Memory };

    fn from(_: AllocError) -> LexFault {
        LexFault::Memory
    }
}
