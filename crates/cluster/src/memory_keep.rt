//! The keep of a node (its stable storage) in memory.
ghost use Rattle.std.specs.Prelude.{◌≡◌, true};
ghost use Rattle.slots.specs.FiniteMap.{trimmed};
ghost use Rattle.synod.specs.Record.{new_kept};

use scope::Steps;
use std::alloc::Global;
use synod::{Change, Failed, Keep, Record, Value, copy_record, ready_change};

/// The stable storage of a node, in the memory of the process. A call fails if an allocation fails;
/// a store also fails if its slot is not below `SLOTS`.
#[derive(Drop)]
pub struct MemoryKeep<V: Value> {
    alloc: Global,
    /// The record that a load copies.
    stored: Record<V>,
    /// The number of failed calls. A `Steps` is a count that only contracts see.
    failures: Steps,
    /// The list of accepted entries does not end in an empty slot, so the slots up to the last
    /// entry are all of it.
    ghost is_trimmed: { trimmed stored.kept.accepted ≡ stored.kept.accepted },
}

impl<V: Value> MemoryKeep<V> {
    /// Creates the storage of a new node. It does not allocate.
    pub fn new(alloc: Global) -> Self
        ensures kept { ⟦<MemoryKeep<V> as Keep<V>>⟧.kept result ≡ new_kept }
        ensures failures { ⟦<MemoryKeep<V> as Keep<V>>⟧.failures result ≡ 0 }
    {
        MemoryKeep {
            alloc,
            stored: Record::new(alloc),
            failures: Steps::new(),
        }
    }
}

impl<V: Value> Keep<V> for MemoryKeep<V> {
    ghost kept = { λ s. s.stored.kept };

    ghost failures = { λ s. s.failures.count };

    ghost is_committed = { λ _. true };

    fn store(&mut self, change: &Change<V>) -> Result<(), Failed> {
        let Ok(change) = ready_change(&mut self.stored, change) else {
            self.failures.tick();
            return Err(Failed);
        };
        self.stored.apply_change(Some(change));
        Ok(())
    }

    fn commit(&mut self) -> Result<(), Failed> {
        Ok(())
    }

    fn load(&mut self) -> Result<Record<V>, Failed> {
        let Ok(record) = copy_record(self.alloc, &self.stored) else {
            self.failures.tick();
            return Err(Failed);
        };
        Ok(record)
    }
}
