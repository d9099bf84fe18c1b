//! One node's library, and the number of log entries applied to it.
ghost use Rattle.std.specs.Prelude.{◌≡◌, ◌<◌, replicate, option_map, IsSome, IfOk};
ghost use Rattle.slots.specs.declared.slots.TheConstants.{SLOTS};
ghost use Rattle.world.specs.Carried.{entry_of};
ghost use Rattle.world.specs.WorldView.{AppliesNext, new_node_library, with_library_reset};

use crate::carried::Carried;
use library::{Entry, Library, Verdict};
use net::StepFault;
use std::alloc::{AllocError, Global};
use std::marker::Model;
use std::mem;
use std::thread::Threads;
use verify_pool::{Gate, PoolSize};

/// A library, and the number of log entries applied to it, in order from the first.
#[derive(Drop)]
pub struct NodeLibrary {
    library: Library,
    applied: u32,
}

impl Model for NodeLibrary {
    ghost use Rattle.world.specs.WorldView.{NodeLibrary};

    ghost Value = { NodeLibrary };

    ghost view = { λ r. record { applied = r.applied; library = r.library.replica } };
}

impl NodeLibrary {
    /// Creates the empty library of a new node; `work_limit` is the greatest work that an entry may
    /// count, if there is a limit. Does not allocate.
    pub fn new(alloc: Global, work_limit: Option<u64>) -> Self
        ensures { result ≡ new_node_library work_limit }
    {
        NodeLibrary {
            library: Library::new(alloc, work_limit),
            applied: 0,
        }
    }

    /// Discards the library, and starts again with that of a new node with the same limit on work.
    /// Does not allocate.
    pub fn reset(&mut self, alloc: Global)
        ensures { self.new ≡ new_node_library self.old.library.limit }
    {
        let new = NodeLibrary::new(alloc, self.library.limit());
        let _old = mem::replace(self, new);
    }

    /// Returns the number of entries applied, which is the slot of the next one.
    pub fn applied(&self) -> u32
        ensures { result ≡ self.now.applied }
    {
        self.applied
    }

    /// Returns the library of the entries applied.
    pub fn library(&self) -> &Library
        ensures { result.now.replica ≡ self.now.library }
    {
        &self.library
    }

    /// Applies `next`, the next entry of the log, and returns its verdict. `next` is `Some(None)`
    /// for a no-operation, and `None` if the log ends here; then `None` is returned.
    ///
    /// Errors: `Memory`; `self` is then unchanged. Cost: that of `Library::apply` on the entry.
    pub fn apply_next(
        &mut self,
        next: Option<&Option<Carried>>,
    ) -> Result<Option<Verdict>, StepFault>
        requires { IsSome next → self.old.applied < SLOTS }
        ensures { AppliesNext self.old self.new (option_map (λ e. entry_of e.now) next.entry) result }
    {
        let Some(value) = next else {
            return Ok(None);
        };
        let verdict = self.library.apply(library_entry(value))?;
        self.applied += 1;
        Ok(Some(verdict))
    }

    /// Applies the next entry of the log as `apply_next` does, with its proofs checked by workers
    /// in parallel. Each worker calls `Gate::pass` before each proof. The number of workers can
    /// change only whether `Memory` is returned.
    ///
    /// Errors: those of `apply_next`; `Memory` may also be returned if a proof is too heavy for a
    /// worker and the gate keeps heavy proofs out (`Gate::admits_heavy`). Cost: that of
    /// `Library::apply_with` on the entry.
    pub fn apply_next_with<G: Gate + Sync, R: Threads + Sync>(
        &mut self,
        rt: &R,
        next: Option<&Option<Carried>>,
        workers: PoolSize,
        gate: &G,
    ) -> Result<Option<Verdict>, StepFault>
        requires { IsSome next → self.old.applied < SLOTS }
        ensures { AppliesNext self.old self.new (option_map (λ e. entry_of e.now) next.entry) result }
    {
        let Some(value) = next else {
            return Ok(None);
        };
        let verdict = self
            .library
            .apply_with(rt, library_entry(value), workers, gate)?;
        self.applied += 1;
        Ok(Some(verdict))
    }
}

/// Returns the entry that a library applies; `None` is the no-operation.
fn library_entry(value: &Option<Carried>) -> Option<&Entry>
    ensures { option_map (λ e. e.now) result ≡ entry_of value.now }
{
    match value {
        Some(carried) => Some(&carried.0),
        None => None,
    }
}

/// Creates an empty library with this limit on work for each of `nodes` nodes.
pub(crate) fn new_libraries(
    alloc: Global,
    work_limit: Option<u64>,
    nodes: u8,
) -> Result<Vec<NodeLibrary>, AllocError>
    ensures { IfOk result (λ libraries. libraries.items ≡ replicate nodes (new_node_library work_limit)) }
{
    let mut libraries = Vec::with_capacity(alloc, nodes as usize)?;
    for _node in 0..nodes {
        libraries.push(NodeLibrary::new(alloc, work_limit))?;
    }
    Ok(libraries)
}

/// Replaces the library of the node that restarts, if one does, by an empty one with this limit on
/// work.
pub(crate) fn reset_library(
    alloc: Global,
    work_limit: Option<u64>,
    libraries: &mut Vec<NodeLibrary>,
    restarted_node: Option<u8>,
)
    ensures { libraries.new.items ≡ with_library_reset work_limit libraries.old.items restarted_node }
{
    if let Some(k) = restarted_node {
        if let Some(node_library) = libraries.get_mut(k as usize) {
            let _old = mem::replace(node_library, NodeLibrary::new(alloc, work_limit));
        }
    }
}
