//! Stable storage for the kept part of a node.
ghost use Rattle.std.specs.Prelude.{◌≡◌, ◌+◌, ◌⊎◌, ℕ, Bool, true, IfOk, OnOk, OnErr, is_ok};
ghost use Rattle.std.specs.Prelude.{if◌then◌else◌};

use crate::change::Change;
use crate::record::Record;

/// A store or a load failed.
#[derive(Clone, Copy, PartialEq, Eq)]
pub struct Failed;

/// The stable storage of a node. A call may fail, for instance because an allocation fails.
///
/// Source: Lamport, Paxos Made Simple, 2.5: an acceptor writes to it before it sends its answer.
pub trait Keep<V: Drop>: Drop {
    ghost use Rattle.synod.specs.Record.{KeptPart, changed};

    /// The record that a load would return.
    ghost kept: { Self → KeptPart V };

    /// The number of failed calls.
    ghost failures: { Self → ℕ };

    /// Whether all that was stored is committed.
    ghost is_committed: { Self → Bool };

    /// Stores one change, which is durable only once it is committed. If that fails, the record is
    /// the old or the new one.
    fn store(&mut self, change: &Change<V>) -> Result<(), Failed>
        ensures stored { OnOk result (kept self.new ≡ changed (kept self.old) change.now) }
        ensures failed { OnErr result
            ((kept self.new ≡ kept self.old) ⊎ (kept self.new ≡ changed (kept self.old) change.now)) }
        ensures counted { failures self.new ≡ (if is_ok result then failures self.old else failures self.old + 1) };

    /// Commits the changes stored since the last commit: they are durable then, all of them or, if a
    /// crash comes first, none. The stored record does not change, even if the commit fails; a later
    /// load then commits them first.
    fn commit(&mut self) -> Result<(), Failed>
        ensures committed { OnOk result (is_committed self.new ≡ true) }
        ensures same { kept self.new ≡ kept self.old }
        ensures counted { failures self.new ≡ (if is_ok result then failures self.old else failures self.old + 1) };

    /// Loads the record, and commits what is not committed yet. The stored record does not change,
    /// even if the load fails.
    fn load(&mut self) -> Result<Record<V>, Failed>
        ensures loaded { IfOk result (λ loaded. loaded.kept ≡ kept self.old) }
        ensures committed { OnOk result (is_committed self.new ≡ true) }
        ensures same { kept self.new ≡ kept self.old }
        ensures counted { failures self.new ≡ (if is_ok result then failures self.old else failures self.old + 1) };
}
