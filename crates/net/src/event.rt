//! The events of a world.

/// An event: a step of one node.
#[derive(Drop)]
pub enum Event<V> {
    /// A value is offered to the node.
    Offer(u8, V),
    /// The node begins a ballot.
    Begin(u8),
    /// The packet with this number is delivered to its receiver, perhaps not for the first time.
    /// Numbers count from 0 in the order of posting.
    Deliver(u64),
    /// The node restarts. It keeps its promise, round and accepted entries, and loses everything
    /// else.
    Restart(u8),
}
