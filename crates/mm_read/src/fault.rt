//! Why a text is not read.
ghost use Rattle.std.specs.Prelude.{◌≡◌};

use mm_lex::LexFault;
use std::alloc::{AllocError, AllocFailed};

/// Why a text is not read: it reads as no statements, or an allocation failed.
#[derive(Clone, Copy, Debug, Drop, PartialEq, Eq)]
pub enum ReadFault {
    /// The text cannot be split into tokens, because of a byte (`LexFault::Text`) or its comments
    /// (`LexFault::Comment`).
    Text(LexFault),
    /// The tokens are those of no list of statements. `token` is the number of the first misplaced
    /// one, counted from 1 without comments: no list of statements begins with the tokens up to and
    /// including it. If the text ends within a statement, it is the number of tokens plus 1.
    Shape { token: usize },
    /// An allocation failed.
    Memory,
}

impl From<LexFault> for ReadFault {
    ghost use Rattle.mm_read.specs.Reads.{read_fault};

    ghost from_gives = { λ lex fault. fault ≡ read_fault lex };

    fn from(fault: LexFault) -> ReadFault {
        match fault {
            LexFault::Memory => ReadFault::Memory,
            _ => ReadFault::Text(fault),
        }
    }
}

impl From<AllocError> for ReadFault {
    ghost use Rattle.mm_read.specs.declared.fault.ReadFault.TheVariants.{Memory};

    ghost from_gives = { λ _ fault. fault ≡ Memory };

    fn from(_: AllocError) -> ReadFault {
        ReadFault::Memory
    }
}

impl<T: Drop> From<AllocFailed<T>> for ReadFault {
    ghost use Rattle.mm_read.specs.declared.fault.ReadFault.TheVariants.{Memory};

    ghost from_gives = { λ _ fault. fault ≡ Memory };

    fn from(_: AllocFailed<T>) -> ReadFault {
        ReadFault::Memory
    }
}
