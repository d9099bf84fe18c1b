//! The keep of a node, whose file is closed after a failed call and opened again by a load.
ghost use Rattle.std.specs.Prelude.{◌≡◌, true, ◌+◌, ◌≤◌, ◌⊎◌, IfOk, IsErr, IsSomeAnd, OnErr, OnOk};
ghost use Rattle.std.specs.Prelude.{Some, None, is_ok, if◌then◌else◌};
ghost use Rattle.sqlite_trees.specs.View.{IsClean};
ghost use Rattle.synod.specs.Record.{changed};
ghost use Rattle.file_keep.specs.Tables.{HasTrees};
ghost use Rattle.file_keep.specs.Keeps.{IsDurable, IsWritten};
ghost use Rattle.file_keep.specs.NodeKeeps.{is_settled_in, kept_of};

use crate::value_columns::ValueColumns;
use crate::witness::{ClosedNode, Witness, WitnessedKeep};
use scope::Steps;
use sqlite_trees::error::StoreError;
use sqlite_trees::store::Store;
use std::alloc::Global;
use std::marker::Model;
use std::mem;
use synod::{Change, Failed, Keep, Record, Value};

/// What opens the file of a node, and closes it at the end.
pub trait Opener<S: Store + Drop>: Drop {
    /// Opens the file: a store that has the three trees.
    fn open(&mut self) -> Result<S, StoreError>
        ensures { IfOk result (λ store. IsClean (S.view store) → HasTrees (S.view store)) };

    /// Closes the file at the end, once nothing more is stored.
    fn close(&mut self, store: S);
}

/// The stable storage of a node, or what stands in place of it if the node is damaged: then each
/// call fails. After a failed call the file is closed, and each further call fails, until a load
/// has opened the file again.
pub struct NodeKeep<V: Value, C: ValueColumns<V>, S: Store + Drop, W: Witness, O: Opener<S>> {
    opener: O,
    open_keep: Option<WitnessedKeep<V, C, S, W>>,
    /// Only if `open_keep` is `None`; neither is there if the node is damaged.
    closed: Option<ClosedNode<V, W>>,
    /// The number of failed calls, which only contracts see.
    failures: Steps,
}

impl<V: Value, C: ValueColumns<V>, S: Store + Drop, W: Witness, O: Opener<S>> Model
    for NodeKeep<V, C, S, W, O> {
    ghost use Rattle.file_keep.specs.NodeKeeps.{NodeView};

    ghost Value = { NodeView V S };

    ghost view = { λ k. record {
      open_keep = k.open_keep;
      closed = k.closed;
      failures = k.failures.count;
    } };
}

impl<V: Value, C: ValueColumns<V>, S: Store + Drop, W: Witness, O: Opener<S>> Drop
    for NodeKeep<V, C, S, W, O> {
    fn drop(self) {
        let NodeKeep {
            mut opener,
            open_keep,
            closed: _,
            failures: _,
        } = self;
        if let Some(keep) = open_keep {
            opener.close(keep.into_store());
        }
    }
}

impl<V: Value, C: ValueColumns<V>, S: Store + Drop, W: Witness, O: Opener<S>> NodeKeep<
    V,
    C,
    S,
    W,
    O,
> {
    /// Opens the file of a node, as `WitnessedKeep::open` does.
    ///
    /// Errors: the file cannot be opened; those of `WitnessedKeep::open`.
    pub fn open(alloc: Global, opener: O, witness: W) -> Result<Self, StoreError>
        ensures whole { IfOk result (λ node. IsSomeAnd node.open_keep
            (λ keep. W.noted witness ≤ keep.keep.content.changes)) }
        ensures durable { IfOk result (λ node. IsSomeAnd node.open_keep
            (λ keep. IsDurable S.view S.recovers C.columns keep.keep)) }
    {
        let mut opener = opener;
        let store = opener.open()?;
        let keep = WitnessedKeep::open(alloc, store, witness)?;
        Ok(NodeKeep {
            opener,
            open_keep: Some(keep),
            closed: None,
            failures: Steps::new(),
        })
    }

    /// Returns what stands in place of the keep of a damaged node.
    pub fn damaged(opener: O) -> Self
        ensures { result ≡ record { open_keep = None; closed = None; failures = 0 } }
    {
        NodeKeep {
            opener,
            open_keep: None,
            closed: None,
            failures: Steps::new(),
        }
    }

    /// Counts a failed call, and closes the file if it is open.
    fn fail(&mut self)
        ensures kept { kept_of self.new.open_keep self.new.closed ≡ kept_of self.old.open_keep self.old.closed }
        ensures counted { self.new.failures ≡ self.old.failures + 1 }
    {
        self.failures.tick();
        if let Some(keep) = mem::replace(&mut self.open_keep, None) {
            self.closed = Some(keep.close());
        }
    }

    /// Opens the file if it is closed.
    fn reopen(&mut self)
        ensures kept { kept_of self.new.open_keep self.new.closed ≡ kept_of self.old.open_keep self.old.closed }
        ensures failures { self.new.failures ≡ self.old.failures }
        ensures down { self.old.open_keep ≡ None → self.old.closed ≡ None → self.new.open_keep ≡ None }
    {
        if self.open_keep.is_some() || self.closed.is_none() {
            return;
        }
        let Ok(store) = self.opener.open() else {
            return;
        };
        if let Some(closed) = mem::replace(&mut self.closed, None) {
            self.open_keep = Some(WitnessedKeep::reopen(closed, store));
        }
    }
}

impl<V: Value, C: ValueColumns<V>, S: Store + Drop, W: Witness, O: Opener<S>> Keep<V>
    for NodeKeep<V, C, S, W, O> {
    ghost kept = { λ k. kept_of k.open_keep k.closed };

    ghost is_committed = { λ k. is_settled_in k.open_keep };

    ghost failures = { λ k. k.failures };

    /// Writes one change into the open transaction, if the file is open.
    fn store(&mut self, change: &Change<V>) -> Result<(), Failed>
        ensures stored { OnOk result
            (kept_of self.new.open_keep self.new.closed
            ≡ changed (kept_of self.old.open_keep self.old.closed) change.now) }
        ensures failed { OnErr result
            ((kept_of self.new.open_keep self.new.closed ≡ kept_of self.old.open_keep self.old.closed)
            ⊎ (kept_of self.new.open_keep self.new.closed
            ≡ changed (kept_of self.old.open_keep self.old.closed) change.now)) }
        ensures counted { self.new.failures ≡ (if is_ok result then self.old.failures else self.old.failures + 1) }
        ensures written { OnOk result
            (IsSomeAnd self.new.open_keep (λ keep. IsWritten S.view C.columns keep.keep)) }
        ensures down { self.old.open_keep ≡ None → IsErr result }
    {
        if let Some(keep) = &mut self.open_keep {
            if keep.store(change).is_ok() {
                return Ok(());
            }
        }
        self.fail();
        Err(Failed)
    }

    /// Commits the open transaction, if the file is open, and then notes how many changes there
    /// are.
    fn commit(&mut self) -> Result<(), Failed>
        ensures committed { OnOk result (is_settled_in self.new.open_keep ≡ true) }
        ensures same { kept_of self.new.open_keep self.new.closed ≡ kept_of self.old.open_keep self.old.closed }
        ensures counted { self.new.failures ≡ (if is_ok result then self.old.failures else self.old.failures + 1) }
        ensures durable { OnOk result
            (IsSomeAnd self.new.open_keep (λ keep. IsDurable S.view S.recovers C.columns keep.keep)) }
        ensures down { self.old.open_keep ≡ None → IsErr result }
    {
        if let Some(open_keep) = &mut self.open_keep {
            if open_keep.commit().is_ok() {
                return Ok(());
            }
        }
        self.fail();
        Err(Failed)
    }

    /// Opens the file if it is closed, reads it, and returns the record.
    fn load(&mut self) -> Result<Record<V>, Failed>
        ensures committed { OnOk result (is_settled_in self.new.open_keep ≡ true) }
        ensures loaded { IfOk result (λ loaded. loaded.kept ≡ kept_of self.old.open_keep self.old.closed) }
        ensures same { kept_of self.new.open_keep self.new.closed ≡ kept_of self.old.open_keep self.old.closed }
        ensures counted { self.new.failures ≡ (if is_ok result then self.old.failures else self.old.failures + 1) }
        ensures durable { OnOk result
            (IsSomeAnd self.new.open_keep (λ keep. IsDurable S.view S.recovers C.columns keep.keep)) }
        ensures down { self.old.open_keep ≡ None → self.old.closed ≡ None → IsErr result }
    {
        self.reopen();
        if let Some(opened) = &mut self.open_keep {
            if let Ok(stored) = opened.load() {
                return Ok(stored);
            }
        }
        self.fail();
        Err(Failed)
    }
}
