//! Restarts a node of a switch.
ghost use Rattle.std.specs.Prelude.{◌≡◌, Some, true, false, OnOk, OnErr};
ghost use Rattle.std.specs.Result.{ForOk};
ghost use Rattle.net.specs.declared.event.Event.TheVariants.{Restart};
ghost use Rattle.switch.specs.Switch.{is_down_at, is_unloaded_at, world_of, IsEffectUnlessDown};
ghost use Rattle.switch.specs.Switch.{IsEffectAtDownNode, CanCommitPending, CommitsPending};
ghost use Rattle.switch.specs.Switch.{IsLoadedAgain, IsReloadOutcome, StaysUnloaded};

use crate::switch::Switch;
use net::{Event, Net, StagedEvent, StepFault};
use synod::{Failed, Keep, Value};

impl<V: Value, K: Keep<V>> Switch<V, K> {
    /// Restarts a node that is up from the record that its keep loads, or returns `NoNode` if there
    /// is no such node.
    pub(crate) fn restart_up(&mut self, k: u8) -> Result<u64, StepFault>
        requires { is_down_at self.old.stores (Some k) ≡ false }
        ensures { ForOk (world_of V.bytes self.old)
            (λ world. IsEffectUnlessDown V.bytes world self.old self.new (Restart k) result) }
    {
        let mut staged = self.net.stage(Event::Restart(k))?;
        let at = staged.at() as usize;
        let record = self.stores[at].load()?;
        staged.load(record);
        Ok(self.net.commit(staged))
    }

    /// Restarts a node that is down: stores the change of its pending event, and commits that event
    /// before the restart. If the node is unloaded, its record is loaded again.
    pub(crate) fn restart_down(&mut self, k: u8) -> Result<u64, StepFault>
        requires { is_down_at self.old.stores (Some k) ≡ true }
        ensures effect { ForOk (world_of V.bytes self.old)
            (λ world. IsEffectAtDownNode V.bytes world self.old self.new (Restart k) result) }
        ensures unloaded { is_unloaded_at self.old.stores k ≡ true
            → IsReloadOutcome V.bytes self.old self.new k result }
    {
        if self.is_unloaded(k) {
            return self.restart_unloaded(k);
        }
        let left = self.net.event_limit() - self.net.history().len() as u64;
        if left < 2 {
            return Err(StepFault::EventsSpent);
        }
        let mut staged = self.net.stage(Event::Restart(k))?;
        let at = staged.at() as usize;
        // The sum overflows only for more packets than any memory holds.
        let Some(packets) = self.stores[at]
            .count_pending_posts()
            .checked_add(staged.posts().len())
        else {
            return Err(StepFault::Memory);
        };
        self.net.reserve(packets, 2)?;
        let (pending, record) = self.stores[at].bring_up()?;
        commit_pending(&mut self.net, pending);
        staged.load(record);
        Ok(self.net.commit(staged))
    }

    /// Restarts a node that is unloaded, if its record can be loaded now: the node begins with that
    /// record, is up, and restarts.
    fn restart_unloaded(&mut self, k: u8) -> Result<u64, StepFault>
        requires { is_unloaded_at self.old.stores k ≡ true }
        ensures { IsReloadOutcome V.bytes self.old self.new k result }
    {
        self.load_again(k)?;
        self.restart_up(k)
    }

    /// Loads the record of a node that is unloaded. The node then begins with it, and is up.
    fn load_again(&mut self, k: u8) -> Result<(), Failed>
        requires { is_unloaded_at self.old.stores k ≡ true }
        ensures loaded { OnOk result (IsLoadedAgain V.bytes self.old self.new k) }
        ensures failed { OnErr result (StaysUnloaded self.old self.new k) }
    {
        let (_pending, record) = self.stores[k as usize].bring_up()?;
        self.net.begin_again(k, record);
        Ok(())
    }
}

/// Commits the event that was pending, if there is one. It does not allocate.
fn commit_pending<V: Value>(net: &mut Net<V>, pending: Option<StagedEvent<V>>)
    requires { CanCommitPending V.bytes net.old pending }
    ensures { CommitsPending net.old net.new pending }
{
    if let Some(staged) = pending {
        net.commit(staged);
    }
}
