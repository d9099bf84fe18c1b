//! The state that a node of a switch reports.
ghost use Rattle.std.specs.Prelude.{◌≡◌, ◌≤◌, ◌<◌, Err, Some, length, IfOk, IsOk, IsOkUnless};
ghost use Rattle.net.specs.NodeStates.{state_after};
ghost use Rattle.net.specs.declared.fault.StepFault.TheVariants.{NoNode};
ghost use Rattle.switch.specs.Switch.{world_of};

use crate::switch::Switch;
use net::StepFault;
use synod::{Keep, NodeState, Value};

impl<V: Value, K: Keep<V>> Switch<V, K> {
    /// Returns the state of node `k`, or `NoNode` if there is no such node. It does not allocate.
    pub fn state(&self, k: u8) -> Result<NodeState, StepFault>
        ensures state { IfOk result (λ state. state_after (world_of V.bytes self.now) k ≡ Some state) }
        ensures no_node { length self.now.stores ≤ k → result ≡ Err NoNode }
        ensures node { k < length self.now.stores → IsOk result }
        ensures only_no_node { IsOkUnless result NoNode }
    {
        self.net.state(k)
    }
}
