//! The values that the nodes agree on.
ghost use Rattle.std.specs.Prelude.{◌≡◌, IfOk};

use std::alloc::AllocError;

/// The maximum size of a value that is offered, in bytes.
pub const MAX_VALUE_BYTES: u64 = 67_108_864;

/// A value that the nodes agree on.
pub trait Value: Sized + Drop {
    ghost use Rattle.std.specs.Prelude.{ℕ};

    /// The size in bytes.
    ghost bytes: { Self → ℕ };

    /// Returns a copy of the value.
    ///
    /// Errors: an allocation fails.
    fn copy(&self) -> Result<Self, AllocError>
        ensures { IfOk result (λ copy. copy ≡ self.now) };

    /// Returns the size in bytes.
    fn size(&self) -> u64
        ensures { result ≡ bytes self.now };
}

/// Returns a copy of a value; `None` is the no-operation.
///
/// Errors and cost: those of copying the value.
pub fn copy_value<V: Value>(value: &Option<V>) -> Result<Option<V>, AllocError>
    ensures { IfOk result (λ copy. copy ≡ value.now) }
{
    match value {
        Some(value) => Ok(Some(value.copy()?)),
        None => Ok(None),
    }
}
