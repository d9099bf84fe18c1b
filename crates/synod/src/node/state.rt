//! The state that a node reports.
ghost use Rattle.std.specs.Prelude.{◌≡◌};

use crate::ballot::Ballot;
use crate::node::NodeCore;
use crate::proposer::Role;
use crate::value::Value;
use std::cmp;

/// The state that a node reports.
#[derive(Clone, Copy, PartialEq, Eq)]
pub struct NodeState {
    /// The role of its proposer.
    pub role: Role,
    /// The ballot that its acceptor promised.
    pub promise: Ballot,
    /// The number of entries of its log: of the values learned before the first gap.
    pub log_len: u32,
    /// One above the greatest slot at which it accepted or learned a value; 0 if there are none.
    pub top: u32,
    /// At how many slots it accepted a value.
    pub accepted: u32,
    /// The number of offered values that wait until it leads.
    pub waiting: usize,
}

impl<V: Value> NodeCore<V> {
    ghost use Rattle.synod.specs.State.{state_of};

    /// Returns the state of the node. It does not allocate.
    pub fn state(&self) -> NodeState
        ensures { result ≡ state_of self.now.node }
    {
        NodeState {
            role: self.proposer.role(),
            promise: self.kept_part.promise(),
            log_len: self.learner.first_gap(),
            top: cmp::max(self.kept_part.top(), self.learner.top()),
            accepted: self.kept_part.accepted_count(),
            waiting: self.proposer.waiting().len(),
        }
    }
}
