//! Why a count ends before all is counted.

ghost use Rattle.std.specs.Prelude.{◌≡◌};

use std::alloc::AllocError;

/// Why a count ends before all is counted.
#[derive(Clone, Copy, Debug, PartialEq, Eq)]
pub enum Stop {
    /// The limit is passed.
    TooCostly,
    /// An allocation failed, or the count would be 2^64 or more.
    Memory,
}

impl From<AllocError> for Stop {
    ghost use Rattle.subst.specs.declared.stop.Stop.TheVariants.{Memory};

    ghost from_gives = { λ _ stop. stop ≡ Memory };

    fn from(_error: AllocError) -> Stop {
        Stop::Memory
    }
}

impl From<Stop> for AllocError {
    ghost from_gives = { λ _ _. Unit {0} };

    /// A count without a limit ends early only where an allocation failed.
    fn from(_stop: Stop) -> AllocError {
        AllocError
    }
}
