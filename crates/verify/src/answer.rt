//! The answers of the verifier.

ghost use Rattle.std.specs.Prelude.{◌≡◌};

use std::alloc::AllocError;

/// Whether a proof is right.
#[derive(Clone, Copy, Debug, Drop, PartialEq, Eq)]
pub enum Answer {
    /// The proof is right: its items spell a derivation of the statement, with a weight within the
    /// limit.
    Proved,
    /// The proof is not right.
    Wrong,
    /// The work of the proof is past the limit of its meter, so it is not known whether it is right.
    TooCostly,
}

/// The reason why no derivation is returned.
#[derive(Clone, Copy, Debug, Drop, PartialEq, Eq)]
pub enum TreeFault {
    /// The proof is not right.
    Wrong,
    /// The proof is right, but its derivation has more nodes or a greater depth than the limits
    /// allow.
    TooLarge,
    /// An allocation failed.
    Memory,
}

impl From<AllocError> for TreeFault {
    ghost use Rattle.verify.specs.declared.answer.TreeFault.TheVariants.{Memory};

    ghost from_gives = { λ _ fault. fault ≡ Memory };

    fn from(_error: AllocError) -> TreeFault {
        TreeFault::Memory
    }
}
