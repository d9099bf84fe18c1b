//! The meter of a proof: counts its work, up to a limit.

ghost use Rattle.std.specs.Prelude.{◌≡◌, ◌+◌, ◌≤◌, IsErr, OnOk, OnErr};
ghost use Rattle.verify.specs.Metered.{is_past, left_of, with_work};

use std::alloc::AllocError;
use std::marker::Model;

/// Counts the work of proofs, one after another, and knows whether a limit is passed. A unit of
/// work is about the cost of one symbol that is read or written.
#[derive(Clone, Copy, Debug)]
pub struct Meter {
    /// The work that was counted.
    count: u64,
    /// The greatest count that is not past the limit, if there is a limit.
    limit: Option<u64>,
}

impl Model for Meter {
    ghost use Rattle.verify.specs.Metered.{Metered, metered};

    ghost Value = { Metered };

    ghost view = { λ a. metered a.count a.limit };

    ghost inverse = { λ m. record { count = m.count; limit = m.limit } };
}

impl Meter {
    /// Returns a meter that has counted nothing, with this limit or without one.
    pub fn new(limit: Option<u64>) -> Meter
        ensures count { result.count ≡ 0 }
        ensures limit { result.limit ≡ limit }
    {
        Meter { count: 0, limit }
    }

    /// Returns the work that was counted.
    pub fn count(&self) -> u64
        ensures { result ≡ self.now.count }
    {
        self.count
    }

    /// Counts this much more.
    ///
    /// Errors: the count would be 2^64 or more; then nothing is counted. It is reported as a failed
    /// allocation.
    pub fn add(&mut self, work: u64) -> Result<(), AllocError>
        ensures counted { OnOk result (self.new ≡ with_work self.old work) }
        ensures same { OnErr result (self.new ≡ self.old) }
        ensures fails { IsErr result → 18446744073709551616 ≤ self.old.count + work }
    {
        self.count = self.count.checked_add(work).ok_or(AllocError)?;
        Ok(())
    }

    /// Returns how much more may be counted behind this much until the limit is passed, if there is
    /// a limit.
    #[inline(always)]
    pub fn left_after(&self, work: u64) -> Option<u64>
        ensures { result ≡ left_of (with_work self.now work) }
    {
        match self.limit {
            Some(limit) => Some(limit.saturating_sub(self.count).saturating_sub(work)),
            None => None,
        }
    }

    /// Returns whether the count is past the limit with this much more.
    #[inline(always)]
    pub fn is_past_with(&self, work: u64) -> bool
        ensures { result ≡ is_past (with_work self.now work) }
    {
        match self.limit {
            Some(limit) => limit < self.count || limit - self.count < work,
            None => false,
        }
    }

    /// Returns whether the count is past the limit.
    pub fn is_past(&self) -> bool
        ensures { result ≡ is_past self.now }
    {
        match self.limit {
            Some(limit) => limit < self.count,
            None => false,
        }
    }
}
