//! Why assertions are not extracted from a library.
use std::alloc::AllocError;

/// Why assertions are not extracted from a library.
#[derive(Clone, Copy, Debug, Drop, PartialEq, Eq)]
pub enum ExtractFault {
    /// No statement has the label.
    NoLabel,
    /// The statement with the label is a hypothesis.
    NotAssertion,
    /// The label occurs earlier in the list.
    SameLabel,
    /// An allocation failed.
    Memory,
}

impl From<AllocError> for ExtractFault {
    ghost use Rattle.std.specs.Prelude.{◌≡◌};
    ghost use Rattle.extract.specs.declared.fault.ExtractFault.TheVariants.{Memory};

    ghost from_gives = { λ _ fault. fault ≡ Memory };

    fn from(_error: AllocError) -> ExtractFault {
        ExtractFault::Memory
    }
}
