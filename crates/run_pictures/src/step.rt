//! The steps of a run.
ghost use Rattle.std.specs.Prelude.{◌≡◌};
ghost use Rattle.run_pictures.specs.StepStart.{ended_of};

use library::Verdict;

/// A step of a run: an event that the world took, or the application of an entry by a node.
#[derive(Clone, Copy, PartialEq, Eq)]
pub struct Step {
    /// The node at which it happened; for a delivery, the receiver of the packet.
    pub node: u8,
    /// Its kind.
    pub act: Act,
    /// The number of packets posted before it, which is the number of the first packet that it
    /// posted, if any; 0 for an application.
    pub first_post: u64,
    /// One more than the number of the last packet that it posted, or `first_post` if it posted
    /// none; 0 for an application.
    pub end_post: u64,
    /// The number of entries of the node's log before the step. A log ends before the first gap: a
    /// value learned beyond it is not counted.
    pub log_len_before: u32,
    /// The number of entries of the node's log after the step: 0 after a restart.
    pub log_len_after: u32,
}

/// The kind of a step: an event, or the application of an entry.
#[derive(Clone, Copy, PartialEq, Eq)]
pub enum Act {
    /// The event of the history at this index offers an entry.
    Offer { event_index: u64 },
    /// A ballot begins.
    Begin,
    /// The packet with this number is delivered.
    Deliver { packet: u64 },
    /// The node restarts.
    Restart,
    /// The entry of the slot is applied to the node's library, with this verdict.
    Apply { slot: u32, verdict: Verdict },
}

/// The fields of a step that are known before its event.
#[derive(Clone, Copy)]
pub(crate) struct StepStart {
    pub(crate) node: u8,
    pub(crate) act: Act,
    pub(crate) first_post: u64,
    pub(crate) log_len_before: u32,
}

impl StepStart {
    /// Returns the step, given the fields that are known after the event.
    pub(crate) fn ended(self, end_post: u64, log_len_after: u32) -> Step
        ensures { result ≡ ended_of self end_post log_len_after }
    {
        Step {
            node: self.node,
            act: self.act,
            first_post: self.first_post,
            end_post,
            log_len_before: self.log_len_before,
            log_len_after,
        }
    }
}
