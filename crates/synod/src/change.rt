//! Changes to the kept part of a node.
use crate::ballot::Ballot;

/// The entry that an acceptor last accepted at a slot. A value of `None` is the no-operation.
#[derive(Drop)]
pub struct AcceptedEntry<V> {
    pub ballot: Ballot,
    pub value: Option<V>,
}

/// A change to the kept part. An event makes at most one.
#[derive(Drop)]
pub enum Change<V> {
    /// Sets the round last begun.
    Round(u64),
    /// Sets the promise.
    Promise(Ballot),
    /// Accepts an entry; its ballot becomes the promise.
    Entry { slot: u32, entry: AcceptedEntry<V> },
}
