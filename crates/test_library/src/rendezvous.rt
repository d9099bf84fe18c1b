//! A gate at which two threads meet: a worker passes the gate of its caller before each job
//! (`verify_pool::Gate`).
use std::sync::atomic::{AtomicBool, Ordering};
use verify_pool::{Gate, Place};

/// How many times a thread checks whether the other has arrived.
const MAX_CHECKS: u64 = 1_000_000_000;

/// A gate at which the first two jobs meet: each waits for the other.
#[derive(Drop)]
pub struct Rendezvous {
    first_arrived: AtomicBool,
    second_arrived: AtomicBool,
    /// Whether one of them gave up waiting.
    timed_out: AtomicBool,
}

impl Rendezvous {
    /// Returns a gate at which neither job has arrived.
    pub fn new() -> Rendezvous {
        Rendezvous {
            first_arrived: AtomicBool::new(false),
            second_arrived: AtomicBool::new(false),
            timed_out: AtomicBool::new(false),
        }
    }

    /// Returns whether neither job gave up waiting; `true` also if none arrived. After a call that
    /// judged both jobs, `true` says that they met.
    pub fn has_not_timed_out(&self) -> bool {
        !self.timed_out.load(Ordering::SeqCst)
    }

    /// Records that `this` job has arrived, and waits until the `other` has, or gives up after
    /// `MAX_CHECKS`.
    fn wait_for(&self, this: &AtomicBool, other: &AtomicBool) {
        this.store(true, Ordering::SeqCst);
        for _check in 0..MAX_CHECKS {
            if other.load(Ordering::SeqCst) {
                return;
            }
        }
        self.timed_out.store(true, Ordering::SeqCst);
    }
}

impl Gate for Rendezvous {
    fn pass(&self, place: Place) {
        match place {
            Place::Job(0) => self.wait_for(&self.first_arrived, &self.second_arrived),
            Place::Job(1) => self.wait_for(&self.second_arrived, &self.first_arrived),
            _ => {}
        }
    }
}
