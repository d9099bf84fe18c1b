//! Checkers that are reused from text to text.
ghost use Rattle.std.specs.Prelude.{◌≡◌, ◌≤◌, ◌-◌, ◌^◌, false, true, vec_len, OnOk};

use std::alloc::{AllocError, Global};
use verify::Checker;

/// The largest number of symbols that the buffer of results of a worker holds (4 MiB). A proof that
/// needs more is heavy, and is left to the calling thread.
pub const MAX_WORKER_SYMBOLS: usize = 1_048_576;

/// What a worker found out about a job.
#[derive(Clone, Copy, Debug, PartialEq, Eq)]
pub enum Found {
    /// It is right, and counts this much work.
    Right(u64),
    /// It is not right, and counts this much work.
    Wrong(u64),
    /// It could not be judged: an allocation failed, its proof is heavy, or the work is past the
    /// limit.
    Unknown,
}

/// A worker's checker, and what it found out.
#[derive(Drop)]
pub struct Worker {
    /// The checker of the worker.
    pub checker: Checker,
    /// What the worker found out about its jobs, one after another. It may have stopped before the
    /// last of them.
    pub founds: Vec<Found>,
}

/// The checker of the calling thread, and those of the workers, which are made when first needed
/// and kept, with their buffers, until memory runs out. Only the checker of the calling thread
/// takes heavy proofs, so that the memory for a heavy proof is needed only once.
///
/// A checker judges a proof the same way whatever it judged before, so contracts see nothing of
/// them.
#[derive(Drop)]
pub struct Checkers {
    alloc: Global,
    /// The checker of the calling thread.
    pub(crate) calling: Checker,
    /// The workers.
    pub(crate) workers: Vec<Worker>,
}

impl Checkers {
    /// Creates a checker for the calling thread, and none for workers. Does not allocate.
    pub fn new(alloc: Global) -> Checkers {
        Checkers {
            alloc,
            calling: Checker::new(alloc),
            workers: Vec::new(alloc),
        }
    }

    /// Returns the allocator of the checkers.
    pub fn alloc(&self) -> Global {
        self.alloc
    }

    /// Sets whether the checker of the calling thread takes heavy proofs.
    pub(crate) fn admit_heavy(&mut self, are_admitted: bool) {
        self.calling
            .set_symbol_limit(calling_symbol_limit(are_admitted));
    }

    /// Frees memory that large proofs needed, as `Checker::shrink` does.
    ///
    /// Does not allocate. Cost: a constant for each worker.
    pub fn shrink(&mut self) {
        self.calling.shrink();
        for worker in &mut self.workers {
            worker.founds = Vec::new(self.alloc);
            worker.checker.shrink();
        }
    }

    /// Drops the checkers of the workers.
    pub(crate) fn drop_workers(&mut self) {
        self.workers.clear();
    }

    /// Creates checkers until there are at least `count` workers.
    ///
    /// Errors: an allocation fails. Cost: a constant for each worker.
    pub(crate) fn add_workers(&mut self, count: usize) -> Result<(), AllocError>
        ensures { OnOk result (count ≤ vec_len self.new.workers) }
    {
        while self.workers.len() < count {
            let mut checker = Checker::new(self.alloc);
            checker.set_symbol_limit(MAX_WORKER_SYMBOLS);
            self.workers.push(Worker {
                checker,
                founds: Vec::new(self.alloc),
            })?;
        }
        Ok(())
    }
}

/// Returns the largest number of symbols that the buffer of results of the calling thread's checker
/// holds: without a limit if heavy proofs are admitted, else that of a worker.
fn calling_symbol_limit(are_admitted: bool) -> usize
    ensures heavy { are_admitted ≡ true → result ≡ 2 ^ 64 - 1 }
    ensures light { are_admitted ≡ false → result ≡ 2 ^ 20 }
{
    if are_admitted {
        usize::MAX
    } else {
        MAX_WORKER_SYMBOLS
    }
}
