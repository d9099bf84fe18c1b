//! A count of steps, by which contracts bound the work.
ghost use Rattle.std.specs.Prelude.{◌≡◌, ℕ, ◌+◌};
ghost use Rattle.std.specs.Borrow.{ftrue};

use std::marker::{Model, PhantomData};

/// The number of steps taken, which only contracts see. Scopes and frames count one step for each
/// statement that they are given, so that a contract can bound how many these are.
#[derive(Drop)]
pub struct Steps {
    /// Has no size: at run time a value stores nothing.
    phantom: PhantomData<u8>,
    pub ghost count: { ℕ },
}

impl Model for Steps {
    ghost also_owns = { λ _. ftrue };
}

// It owns nothing.
unsafe impl Send for Steps {}

impl Steps {
    /// Returns a count of 0.
    pub fn new() -> Steps
        ensures { result.count ≡ 0 }
    {
        Steps {
            phantom: PhantomData,
        }
    }

    /// Adds one to the count.
    pub fn tick(&mut self)
        ensures { self.new.count ≡ self.old.count + 1 }
    {}
}
