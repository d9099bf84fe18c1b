//! The faults of events.
ghost use Rattle.std.specs.Prelude.{◌≡◌};

use std::alloc::AllocError;
use synod::{Failed, Refusal};
use thiserror::Error;

/// Why an event was refused. If several faults apply, a net returns the first in this order:
/// `EventsSpent`, `NoNode`, `NoPacket`, `TooLong`, `LogFull`, `RoundsSpent`, `Busy`, `Memory`. It
/// never returns the other four, which are for the crates `switch`, `cluster` and `nodes`.
#[derive(Debug, Clone, Copy, PartialEq, Eq, Error)]
pub enum StepFault {
    /// 64 values are waiting at the node.
    #[error("too many values wait at the node")]
    Busy,
    /// No slot is left for the offered value.
    #[error("each slot of the log is taken")]
    LogFull,
    /// No higher round exists.
    #[error("no round is left")]
    RoundsSpent,
    /// The offered value is longer than the limit.
    #[error("the value is too long")]
    TooLong,
    /// An allocation failed.
    #[error("out of memory")]
    Memory,
    /// No node has this number.
    #[error("no such node")]
    NoNode,
    /// No packet has this number.
    #[error("no such packet")]
    NoPacket,
    /// The world has taken as many events as its limit allows.
    #[error("no event is left")]
    EventsSpent,
    /// A store or a load of the node's record failed. Only `switch` and the crates above it return
    /// it.
    #[error("the store failed")]
    Device,
    /// The node is down. Only `switch` and the crates above it return it.
    #[error("the node is down")]
    Down,
    /// The threads of the nodes were stopped. Only `nodes` and the crates above it return it.
    #[error("the cluster is stopped")]
    Stopped,
    /// The given cell (a node's library and the entries for it) belongs to another node or another
    /// switch. Only `cluster` and the crates above it return it.
    #[error("the libraries are apart")]
    Apart,
}

impl From<Refusal> for StepFault {
    ghost use Rattle.net.specs.World.{fault_of};

    ghost from_gives = { λ refusal fault. fault ≡ fault_of refusal };

    fn from(refusal: Refusal) -> StepFault {
        match refusal {
            Refusal::Busy => StepFault::Busy,
            Refusal::LogFull => StepFault::LogFull,
            Refusal::RoundsSpent => StepFault::RoundsSpent,
            Refusal::TooLong => StepFault::TooLong,
            Refusal::Memory => StepFault::Memory,
        }
    }
}

impl From<AllocError> for StepFault {
    ghost use Rattle.net.specs.declared.fault.StepFault.TheVariants.{Memory};

    ghost from_gives = { λ _ fault. fault ≡ Memory };

    fn from(_error: AllocError) -> StepFault {
        StepFault::Memory
    }
}

impl From<Failed> for StepFault {
    ghost use Rattle.net.specs.declared.fault.StepFault.TheVariants.{Device};

    ghost from_gives = { λ _ fault. fault ≡ Device };

    fn from(_failed: Failed) -> StepFault {
        StepFault::Device
    }
}
