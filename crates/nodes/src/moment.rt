//! The moments of a cluster's history, which contracts alone see.
use cluster::{MemoryKeep, NodeCell, Switch};
use world::Carried;

/// What happened under a lock. No value of this type is made; contracts see a switch and a cell as
/// the values that they had.
pub enum Moment {
    /// The switch became this one.
    SwitchIs(Switch<Carried, MemoryKeep<Carried>>),
    /// The cell of its node became this one.
    CellIs(NodeCell),
    /// The cluster was stopped.
    Ended,
}
