//! The state that a node of a world reports: role, promise, length of the log, count of waiting
//! values.
ghost use Rattle.std.specs.Prelude.{◌≡◌, ◌≤◌, ◌<◌, Err, Some, length, IfOk, IsOk, IsOkUnless};

use crate::fault::StepFault;
use crate::net::Net;
use synod::{NodeState, Value};

impl<V: Value> Net<V> {
    ghost use Rattle.net.specs.NodeStates.{state_after};
    ghost use Rattle.net.specs.History.{world_of};
    ghost use Rattle.net.specs.declared.fault.StepFault.TheVariants.{NoNode};

    /// Returns the state of node `k`. It does not allocate.
    ///
    /// Errors: `NoNode`.
    pub fn state(&self, k: u8) -> Result<NodeState, StepFault>
        ensures state { IfOk result
            (λ state. state_after (world_of V.bytes self.now.history) k ≡ Some state) }
        ensures no_node { length self.now.history.weights ≤ k → result ≡ Err NoNode }
        ensures node { k < length self.now.history.weights → IsOk result }
        ensures only_no_node { IsOkUnless result NoNode }
    {
        match self.nodes.get(k as usize) {
            Some(node) => Ok(node.state()),
            None => Err(StepFault::NoNode),
        }
    }
}
