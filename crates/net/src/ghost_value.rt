//! A value that only contracts see.
ghost use Rattle.std.specs.Prelude.{◌≡◌};
ghost use Rattle.std.specs.Borrow.{ftrue};

use std::marker::{Model, PhantomData};

/// A value that only contracts see. At run time it has no bytes.
#[derive(Drop)]
pub(crate) struct GhostValue<T> {
    marker: PhantomData<T>,
    pub ghost value: { T },
}

impl<T> Model for GhostValue<T> {
    ghost also_owns = { λ _. ftrue };
}

// It owns nothing.
unsafe impl<T> Send for GhostValue<T> {}

impl<T> GhostValue<T> {
    /// Returns the value that the reference shows. It does not allocate.
    pub fn of(present: &T) -> GhostValue<T>
        ensures { result.value ≡ present.now }
    {
        let _ = present;
        GhostValue {
            marker: PhantomData,
        }
    }
}
