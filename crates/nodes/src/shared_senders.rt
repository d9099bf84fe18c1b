//! The sending ends of the nodes' channels under their lock.
ghost use Rattle.std.specs.Prelude.{◌≡◌, true, IfOk, IsOkUnless, IsTrue};
ghost use Rattle.net.specs.declared.fault.StepFault.TheVariants.{Apart};
ghost use Rattle.nodes.specs.Words.{IsPrefixOf};
ghost use Rattle.nodes.specs.Moments.{IsStoppedAt, count_of};
ghost use Rattle.nodes.specs.Runs.{IsRun};

use crate::account::Account;
use crate::book::{AsEnded, Front, Naming};
use crate::shared_switch::Hint;
use crossbeam_channel::Sender;
use net::StepFault;
use std::marker::Model;
use std::sync::Wait;

/// The sending ends of the nodes' channels, none once the cluster is stopped, and the account of
/// their lock.
#[derive(Drop)]
pub(crate) struct SharedSenders<J: Naming> {
    senders: Vec<Sender<u64>>,
    is_stopped: bool,
    account: Account<J>,
}

impl<J: Naming> Model for SharedSenders<J> {
    ghost use Rattle.nodes.specs.Shared.{AreSharedSenders, SendersView};

    ghost Value = { SendersView };

    ghost view = { λ s. record { is_stopped = s.is_stopped; account = s.account } };

    ghost invariant = { λ s. AreSharedSenders s.is_stopped s.account };
}

impl<J: Naming> SharedSenders<J> {
    /// Wraps the sending ends of a cluster that runs.
    pub fn new(senders: Vec<Sender<u64>>, account: Account<J>) -> Self
        requires lock { account.lock ≡ 1 }
        requires none { account.belongs ≡ true → count_of 1 account.history ≡ 0 }
    {
        SharedSenders {
            senders,
            is_stopped: false,
            account,
        }
    }

    /// Sees the history as it is, and returns whether the cluster was stopped.
    ///
    /// Errors: `Apart` if the lock does not belong to the history.
    pub fn is_stopped(&self, front: &mut Front<J>) -> Result<bool, StepFault>
        ensures seen { IsPrefixOf front.old front.new }
        ensures run { IsRun front.new }
        ensures stopped { IfOk result (IsStoppedAt front.new) }
        ensures only_apart { IsOkUnless result Apart }
    {
        if self.account.look(front) {
            Ok(self.is_stopped)
        } else {
            Err(StepFault::Apart)
        }
    }

    /// Closes the channels, and records that the cluster is stopped. Returns whether that was
    /// recorded. It does not allocate.
    pub fn stop(&mut self, front: &mut Front<J>) -> bool
        ensures seen { IsPrefixOf front.old front.new }
        ensures stopped { IsTrue result → IsStoppedAt front.new true }
    {
        self.senders.clear();
        self.is_stopped = true;
        self.account.add::<u8, AsEnded>(front, &0)
    }

    /// Sends each hint into the channel of its node. A hint that the channel refuses is a lost
    /// packet.
    pub fn send<R: Wait>(&self, rt: &R, hints: &[Hint]) {
        for hint in hints {
            if let Some(sender) = self.senders.get(usize::from(hint.node)) {
                let _ = sender.send(rt, hint.number);
            }
        }
    }
}
