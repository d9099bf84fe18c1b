//! Jobs that workers share.

ghost use Rattle.std.specs.Prelude.{◌≡◌, ◌<◌, ◌^◌, ℕ, IfOk};
ghost use Rattle.verify.specs.Counted.{HasCountedAnswer};
ghost use Rattle.verify.specs.Right.{IsAnswerIfAny};

use std::alloc::AllocError;
use verify::{Answer, Checker, Meter};

/// Jobs by index, each of which is right or not, and counts its work.
pub trait Work {
    /// The number of jobs.
    ghost count: { Self → ℕ };

    /// The job of this index is right.
    ghost right: { Self → ℕ → Type 0 };

    /// The work that the job of this index counts.
    ghost work: { Self → ℕ → ℕ };

    /// Returns the number of jobs.
    fn count(&self) -> usize
        ensures count { result ≡ count self.now }
        ensures few { result < 2 ^ 63 };

    /// Returns whether the job of that index, from 0, is right, by a checker, whatever it judged
    /// before. Counts its work on the meter; `Answer::TooCostly` says that it is past the limit.
    ///
    /// Errors: an allocation fails. Then the meter may have counted a part.
    fn judge(
        &self,
        index: usize,
        checker: &mut Checker,
        meter: &mut Meter,
    ) -> Result<Answer, AllocError>
        requires { index < count self.now }
        ensures answer { IfOk result (λ answer. IsAnswerIfAny answer (right self.now index)) }
        ensures counted { IfOk result (HasCountedAnswer (work self.now index) meter.old meter.new) };
}
