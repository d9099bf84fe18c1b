//! Builds packets to several nodes, in the order of the nodes.
ghost use Rattle.std.specs.Prelude.{◌≡◌, ◌++◌, [], ◌∷◌, IfOk, OnOk};
ghost use Rattle.synod.specs.Packets.{packet};
ghost use Rattle.synod.specs.Broadcast.{body_of, is_ask, to_node, broadcast_posts};

use crate::ballot::Ballot;
use crate::packet::{Body, Packet};
use crate::value::{Value, copy_value};
use crate::weights::Weights;
use std::alloc::{AllocError, Global};

/// A message to all nodes including the sender, or an Ask to all others. Each packet has its own
/// copy of the value.
#[derive(Drop)]
pub enum Broadcast<'a, V> {
    Prepare {
        ballot: Ballot,
        first: u32,
    },
    Accept {
        ballot: Ballot,
        slot: u32,
        value: &'a Option<V>,
    },
    Accepted {
        ballot: Ballot,
        slot: u32,
        value: &'a Option<V>,
    },
    Ask {
        slot: u32,
    },
}

impl<V> Broadcast<'_, V> {
    /// Returns whether the message is an Ask, which is not sent to the sender.
    fn is_ask(&self) -> bool
        ensures { result ≡ is_ask self.now }
    {
        match self {
            Broadcast::Ask { .. } => true,
            _ => false,
        }
    }
}

/// Returns the body of one packet.
fn make_body<V: Value>(message: &Broadcast<V>) -> Result<Body<V>, AllocError>
    ensures { IfOk result (λ body. body ≡ body_of message.now) }
{
    match message {
        Broadcast::Prepare { ballot, first } => Ok(Body::Prepare {
            ballot: *ballot,
            first: *first,
        }),
        Broadcast::Accept {
            ballot,
            slot,
            value,
        } => Ok(Body::Accept {
            ballot: *ballot,
            slot: *slot,
            value: copy_value(value)?,
        }),
        Broadcast::Accepted {
            ballot,
            slot,
            value,
        } => Ok(Body::Accepted {
            ballot: *ballot,
            slot: *slot,
            value: copy_value(value)?,
        }),
        Broadcast::Ask { slot } => Ok(Body::Ask { slot: *slot }),
    }
}

/// Appends one packet.
fn post<V: Value>(
    posts: &mut Vec<Packet<V>>,
    from: u8,
    to: u8,
    message: &Broadcast<V>,
) -> Result<(), AllocError>
    ensures { OnOk result (posts.new.items ≡ posts.old.items ++ packet from to (body_of message.now) ∷ []) }
{
    let body = make_body(message)?;
    posts.push(Packet { from, to, body })?;
    Ok(())
}

/// Appends the packet to one node, unless it is an Ask to the sender.
fn post_to_node<V: Value>(
    posts: &mut Vec<Packet<V>>,
    from: u8,
    to: u8,
    message: &Broadcast<V>,
) -> Result<(), AllocError>
    ensures { OnOk result
        (posts.new.items ≡ posts.old.items ++ to_node (is_ask message.now) from to (body_of message.now)) }
{
    if !message.is_ask() {
        return post(posts, from, to, message);
    }
    if to == from {
        Ok(())
    } else {
        post(posts, from, to, message)
    }
}

/// Appends the packets of a message, one for each receiver.
///
/// Errors: an allocation fails; some packets may have been appended. Cost: the packets.
pub(crate) fn post_broadcast<V: Value>(
    posts: &mut Vec<Packet<V>>,
    me: u8,
    weights: &Weights,
    message: &Broadcast<V>,
) -> Result<(), AllocError>
    ensures { OnOk result (posts.new.items ≡ posts.old.items ++ broadcast_posts me weights.now message.now) }
{
    let node_weights = weights.as_slice();
    let mut to = 0u8;
    for _weight in node_weights {
        post_to_node(posts, me, to, message)?;
        to += 1;
    }
    Ok(())
}

/// Returns the packets of a message, one for each receiver.
///
/// Errors: an allocation fails. Cost: the packets.
pub(crate) fn broadcast_posts<V: Value>(
    alloc: Global,
    me: u8,
    weights: &Weights,
    message: &Broadcast<V>,
) -> Result<Vec<Packet<V>>, AllocError>
    ensures { IfOk result (λ posts. posts.items ≡ broadcast_posts me weights.now message.now) }
{
    let mut posts = Vec::new(alloc);
    post_broadcast(&mut posts, me, weights, message)?;
    Ok(posts)
}
