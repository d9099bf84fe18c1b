//! A staged step: all that it needs is allocated, and nothing is changed yet.
ghost use Rattle.std.specs.Prelude.{◌≡◌, MatchOption, Some, None};
ghost use Rattle.std.specs.Borrow.{ftrue};

use crate::change::Change;
use crate::learner::LearnerUpdate;
use crate::node::NodeCore;
use crate::packet::Packet;
use crate::proposer::ProposerUpdate;
use std::marker::{Model, PhantomData};

/// The updates that a step makes to the three parts of a node.
#[derive(Drop)]
pub struct StagedUpdates<V> {
    pub change: Option<Change<V>>,
    pub proposer: Option<ProposerUpdate<V>>,
    pub learner: Option<LearnerUpdate<V>>,
}

/// A value that only contracts see. At run time it has no bytes.
#[derive(Drop)]
struct GhostValue<T> {
    marker: PhantomData<T>,
    pub ghost value: { T },
}

impl<T> Model for GhostValue<T> {
    ghost also_owns = { λ _. ftrue };
}

// It owns nothing.
unsafe impl<T> Send for GhostValue<T> {}

impl<T> GhostValue<T> {
    fn of(present: &T) -> GhostValue<T>
        ensures { result.value ≡ present.now }
    {
        let _ = present;
        GhostValue {
            marker: PhantomData,
        }
    }
}

/// A step of a node, ready to be committed. Contracts see the step, and the node as it was when it
/// staged the step.
#[derive(Drop)]
pub struct Ready<V> {
    before: GhostValue<NodeCore<V>>,
    staged: StagedUpdates<V>,
    posts: Vec<Packet<V>>,
}

impl<V> Model for Ready<V> {
    ghost use Rattle.synod.specs.Ready.{ReadyView, staged_node, CanCommit};

    ghost Value = { ReadyView V };

    ghost view = { λ r. record {
      before = r.before.value;
      step = record { node = staged_node r.before.value.node r.staged; change = r.staged.change; posts = r.posts.items };
    } };

    ghost invariant = { λ r. CanCommit r.before.value r.staged };
}

impl<V: Drop> Ready<V> {
    ghost use Rattle.synod.specs.Ready.{staged_node, CanCommit};

    /// Creates a staged step of a node. It does not allocate.
    pub(crate) fn new(node: &NodeCore<V>, staged: StagedUpdates<V>, posts: Vec<Packet<V>>) -> Self
        requires { CanCommit node.now staged }
        ensures before { result.before ≡ node.now }
        ensures step { result.step
            ≡ record { node = staged_node node.now.node staged; change = staged.change; posts = posts.items } }
    {
        Ready {
            before: GhostValue::of(node),
            staged,
            posts,
        }
    }

    /// Returns the updates and the posts. It does not allocate. The updates can be committed to the
    /// node as it was when it staged the step (`committable`).
    pub(crate) fn into_staged(self) -> (StagedUpdates<V>, Vec<Packet<V>>)
        ensures committable { CanCommit self.before result.0 }
        ensures node { self.step.node ≡ staged_node self.before.node result.0 }
        ensures posts { result.1.items ≡ self.step.posts }
    {
        (self.staged, self.posts)
    }

    /// Returns the change that the step makes to the kept part, if any.
    pub fn change(&self) -> Option<&Change<V>>
        ensures { MatchOption result (self.now.step.change ≡ None) (λ change. self.now.step.change ≡ Some change.now) }
    {
        self.staged.change.as_ref()
    }

    /// Returns the packets that the step posts, in order.
    pub fn posts(&self) -> &[Packet<V>]
        ensures { result.now ≡ self.now.step.posts }
    {
        self.posts.as_slice()
    }

    /// Returns the packets that the step posts, in order. It does not allocate.
    pub fn into_posts(self) -> Vec<Packet<V>>
        ensures { result.items ≡ self.step.posts }
    {
        self.posts
    }
}
