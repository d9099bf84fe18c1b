//! A keep that fails at one of its calls, three nodes of which the first uses it, and entries of
//! texts.
ghost use Rattle.std.specs.Prelude.{◌≡◌, ◌+◌, true};
ghost use Rattle.synod.specs.Record.{new_kept};

use bytes::Bytes;
use cluster::{MemoryKeep, NodeCell, Switch, cells, restart_on};
use library::{Entry, Submission};
use net::StepFault;
use scope::Steps;
use std::alloc::{AllocError, Global};
use synod::{Change, Failed, Keep, Record, Weights};
use world::Carried;

/// Returns the text as an entry of author 7 with this serial number.
pub fn entry(alloc: Global, serial: u64, text: &[u8]) -> Result<Entry, AllocError> {
    Ok(Entry::Text(Submission {
        author: 7,
        serial,
        text: Bytes::copy_from_slice(alloc, text)?,
    }))
}

/// A keep in memory that fails once, after `calls_left` more calls, and then works again; it never
/// fails by itself if `calls_left` is `None`. A store that fails leaves the new record if
/// `leaves_new`, else the old one.
#[derive(Drop)]
pub struct FailOnceKeep {
    keep: MemoryKeep<Carried>,
    calls_left: Option<u32>,
    leaves_new: bool,
    /// How often it failed by itself: a count that contracts alone see.
    failures: Steps,
}

impl FailOnceKeep {
    /// Creates the keep of a new node.
    pub fn new(alloc: Global, calls_left: Option<u32>, leaves_new: bool) -> Self
        ensures { ⟦<MemoryKeep<Carried> as Keep<Carried>>⟧.kept result.keep ≡ new_kept }
    {
        FailOnceKeep {
            keep: MemoryKeep::new(alloc),
            calls_left,
            leaves_new,
            failures: Steps::new(),
        }
    }
}

impl Keep<Carried> for FailOnceKeep {
    ghost kept = { λ s. ⟦<MemoryKeep<Carried> as Keep<Carried>>⟧.kept s.keep };

    ghost is_committed = { λ _. true };

    ghost failures = { λ s. s.failures.count + ⟦<MemoryKeep<Carried> as Keep<Carried>>⟧.failures s.keep };

    fn store(&mut self, change: &Change<Carried>) -> Result<(), Failed> {
        if !fails_now(&mut self.calls_left) {
            return self.keep.store(change);
        }
        if self.leaves_new && self.keep.store(change).is_err() {
            return Err(Failed);
        }
        self.failures.tick();
        Err(Failed)
    }

    fn commit(&mut self) -> Result<(), Failed> {
        if !fails_now(&mut self.calls_left) {
            return self.keep.commit();
        }
        self.failures.tick();
        Err(Failed)
    }

    fn load(&mut self) -> Result<Record<Carried>, Failed> {
        if !fails_now(&mut self.calls_left) {
            return self.keep.load();
        }
        self.failures.tick();
        Err(Failed)
    }
}

/// Counts a call, and returns whether it is the one that fails.
fn fails_now(calls_left: &mut Option<u32>) -> bool {
    match *calls_left {
        Some(0) => {
            *calls_left = None;
            true
        }
        Some(n) => {
            *calls_left = Some(n - 1);
            false
        }
        None => false,
    }
}

/// Makes three nodes, of which the first has this keep.
pub fn make_three_nodes(
    alloc: Global,
    first: FailOnceKeep,
) -> Result<(Switch<Carried, FailOnceKeep>, Vec<NodeCell>), StepFault>
    requires { ⟦<MemoryKeep<Carried> as Keep<Carried>>⟧.kept first.keep ≡ new_kept }
{
    let others = FailOnceKeep::new(alloc, None, false);
    let Ok(keeps) = vec![in alloc; first, others, FailOnceKeep::new(alloc, None, false)] else {
        return Err(StepFault::Memory);
    };
    cells(alloc, Weights::equal(3), 1_000_000, None, keeps)
}

/// Restarts the first node.
pub fn restart_first_node(
    switch: &mut Switch<Carried, FailOnceKeep>,
    cells: &mut Vec<NodeCell>,
) -> Result<u64, StepFault> {
    match cells.get_mut(0) {
        Some(cell) => restart_on(cell, switch),
        None => Err(StepFault::NoNode),
    }
}
