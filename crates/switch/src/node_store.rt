//! The store of a node: its keep, and whether the node is up, or down since a call of its keep
//! failed.
ghost use Rattle.std.specs.Prelude.{◌≡◌, ◌≢◌, ◌+◌, Ok, Some, None, true, false, length, IfOk, OnOk, OnErr};
ghost use Rattle.std.specs.Prelude.{IsSome, is_ok, if◌then◌else◌};
ghost use Rattle.synod.specs.Record.{changed_by};
ghost use Rattle.net.specs.Staged.{change_in, posts_of};
ghost use Rattle.switch.specs.NodeStore.{EndsGroup, Fails, IsCommitted, IsWithOrWithout};
ghost use Rattle.switch.specs.NodeStore.{pending_change, pending_of};
ghost use Rattle.switch.specs.NodeStore.{pending_posts, status_of, up, down, with_change};
ghost use Rattle.switch.specs.NodeStore.{with_pending_change};
ghost use Rattle.switch.specs.Switch.{is_down, is_unloaded, status_view, view_of, IsResumedStore};

use net::StagedEvent;
use std::alloc::Global;
use std::marker::Model;
use std::mem;
use synod::{Failed, Keep, Record, Value};

/// Whether a node takes events.
#[derive(Drop)]
pub(crate) enum Status<V> {
    Up,
    /// A call of the keep failed: a load, the commit of a group, or the store or commit of this
    /// event.
    Down(Option<StagedEvent<V>>),
    /// The record could not be loaded so far, and nothing happened at the node.
    Unloaded,
}

/// A node's keep, and whether the node is up, or down and which event is pending. Outside a group
/// the change of each event is committed when it is stored; in a group of events all changes are
/// committed together, at its end.
#[derive(Drop)]
pub(crate) struct NodeStore<V: Value, K: Keep<V>> {
    keep: K,
    status: Status<V>,
    in_group: bool,
}

impl<V: Value, K: Keep<V>> Model for NodeStore<V, K> {
    ghost use Rattle.switch.specs.NodeStore.{StoreState, status_of, IsCommitted};

    ghost Value = { StoreState V };

    ghost view = { λ s. record {
      kept = K.kept s.keep;
      failures = K.failures s.keep;
      status = status_of s.status;
      in_group = s.in_group;
    } };

    ghost invariant = { λ s. IsCommitted (status_of s.status) s.in_group (K.kept s.keep) (K.is_committed s.keep) };
}

impl<V: Value, K: Keep<V>> NodeStore<V, K> {
    /// Creates the store of a node that is up.
    pub fn new(keep: K) -> Self
        requires { IsCommitted up false (K.kept keep) (K.is_committed keep) }
        ensures { result ≡ record {
          kept = K.kept keep;
          failures = K.failures keep;
          status = up;
          in_group = false;
        } }
    {
        NodeStore {
            keep,
            status: Status::Up,
            in_group: false,
        }
    }

    /// Creates the store of a node that begins with the record of its keep, and returns that
    /// record. If it cannot be loaded, the node is unloaded, and the record is that of a new node.
    pub fn resume(alloc: Global, keep: K) -> (Self, Record<V>)
        ensures { IsResumedStore (K.kept keep) (K.failures keep) result.1.kept (view_of result.0) }
    {
        let mut keep = keep;
        match keep.load() {
            Ok(record) => (NodeStore::new(keep), record),
            Err(Failed) => (
                NodeStore {
                    keep,
                    status: Status::Unloaded,
                    in_group: false,
                },
                Record::new(alloc),
            ),
        }
    }

    /// Returns whether the record of the node could not be loaded so far.
    pub fn is_unloaded(&self) -> bool
        ensures { result ≡ is_unloaded (status_view self.now.status) }
    {
        match &self.status {
            Status::Up => false,
            Status::Down(_) => false,
            Status::Unloaded => true,
        }
    }

    /// Returns whether the node is down.
    pub fn is_down(&self) -> bool
        ensures { result ≡ is_down (status_view self.now.status) }
    {
        match &self.status {
            Status::Up => false,
            Status::Down(_) => true,
            Status::Unloaded => true,
        }
    }

    /// Begins a group of events.
    pub fn begin_group(&mut self)
        ensures { self.new ≡ record self.old { in_group = true } }
    {
        self.in_group = true;
    }

    /// Ends a group: commits its changes, and returns whether the node is up and all is committed.
    /// If the keep fails, the node is down and no event is pending.
    pub fn end_group(&mut self) -> bool
        ensures { EndsGroup self.old self.new result }
    {
        self.in_group = false;
        match &self.status {
            Status::Up => {}
            Status::Down(_) => return false,
            Status::Unloaded => return false,
        }
        if self.keep.commit().is_ok() {
            return true;
        }
        self.status = Status::Down(None);
        false
    }

    /// Stores the change of a staged event, commits it unless the event is one of a group, and
    /// returns the event. If the keep fails, the node is down and the event is pending.
    pub fn store(&mut self, staged: StagedEvent<V>) -> Result<StagedEvent<V>, Failed>
        ensures stored { OnOk result (self.new ≡ with_change self.old (change_in staged.work)) }
        ensures staged { IfOk result (λ same. same ≡ staged) }
        ensures failed { OnErr result (Fails self.old (change_in staged.work) (down (Some staged)) self.new) }
    {
        match store_change(&mut self.keep, &staged, self.in_group) {
            Ok(()) => Ok(staged),
            Err(failed) => {
                self.status = Status::Down(Some(staged));
                Err(failed)
            }
        }
    }

    /// Loads the record of a node that is up. If the keep fails, the node is down and no event is
    /// pending. For a node that is down there is `bring_up`; here its pending event would be lost.
    pub fn load(&mut self) -> Result<Record<V>, Failed>
        ensures loaded { IfOk result (λ loaded. loaded.kept ≡ self.old.kept) }
        ensures same { OnOk result (self.new ≡ self.old) }
        ensures failed { OnErr result (Fails self.old None (down None) self.new) }
    {
        match self.keep.load() {
            Ok(record) => Ok(record),
            Err(failed) => {
                self.status = Status::Down(None);
                Err(failed)
            }
        }
    }

    /// Returns the number of packets that the pending event posts, or 0 if no event is pending.
    pub fn count_pending_posts(&self) -> usize
        ensures { result ≡ length (pending_posts (pending_of self.now.status)) }
    {
        match &self.status {
            Status::Down(Some(staged)) => staged.posts().len(),
            Status::Down(None) => 0,
            Status::Up => 0,
            Status::Unloaded => 0,
        }
    }

    /// Stores the change of the pending event, if there is one, loads the record, and marks the
    /// node, which is down, as up. Returns the event that was pending, and the record. If a call of
    /// the keep fails, the node stays down.
    pub fn bring_up(&mut self) -> Result<(Option<StagedEvent<V>>, Record<V>), Failed>
        requires { self.old.status ≢ up }
        ensures pending { IfOk result (λ parts. parts.0 ≡ pending_of self.old.status) }
        ensures loaded { IfOk result (λ parts. parts.1.kept ≡ (with_pending_change self.old).kept) }
        ensures up { OnOk result (self.new ≡ record (with_pending_change self.old) { status = up }) }
        ensures failed { OnErr result
            (Fails self.old (pending_change (pending_of self.old.status)) self.old.status self.new) }
    {
        self.store_pending()?;
        let record = self.keep.load()?;
        Ok((take_pending(&mut self.status), record))
    }

    /// Stores the change of the pending event, if there is one.
    fn store_pending(&mut self) -> Result<(), Failed>
        ensures stored { OnOk result (self.new ≡ with_pending_change self.old) }
        ensures failed { OnErr result
            (Fails self.old (pending_change (pending_of self.old.status)) self.old.status self.new) }
    {
        match &self.status {
            Status::Down(Some(staged)) => store_change(&mut self.keep, staged, false),
            Status::Down(None) => Ok(()),
            Status::Up => Ok(()),
            Status::Unloaded => Ok(()),
        }
    }
}

/// Marks a node as up, and returns the event that was pending, if there was one.
fn take_pending<V: Value>(status: &mut Status<V>) -> Option<StagedEvent<V>>
    ensures pending { result ≡ pending_of (status_of status.old) }
    ensures up { status_of status.new ≡ up }
{
    match mem::replace(status, Status::Up) {
        Status::Down(pending) => pending,
        Status::Up => None,
        Status::Unloaded => None,
    }
}

/// Stores the change of a staged event, if it makes one, and commits it unless the event is one of
/// a group.
fn store_change<V: Value, K: Keep<V>>(
    keep: &mut K,
    staged: &StagedEvent<V>,
    in_group: bool,
) -> Result<(), Failed>
    ensures stored { OnOk result (K.kept keep.new ≡ changed_by (K.kept keep.old) (change_in staged.now.work)) }
    ensures failed { OnErr result (IsWithOrWithout (K.kept keep.old) (change_in staged.now.work) (K.kept keep.new)) }
    ensures counted { K.failures keep.new ≡ (if is_ok result then K.failures keep.old else K.failures keep.old + 1) }
    ensures committed { OnOk result
        (in_group ≡ false → IsSome (change_in staged.now.work) → K.is_committed keep.new ≡ true) }
    ensures same { change_in staged.now.work ≡ None → keep.new ≡ keep.old }
{
    let Some(change) = staged.change() else {
        return Ok(());
    };
    keep.store(change)?;
    if in_group {
        return Ok(());
    }
    keep.commit()
}
