//! The packets that nodes send one another.
ghost use Rattle.std.specs.Prelude.{◌≡◌, IfOk};

use crate::ballot::Ballot;
use crate::value::{Value, copy_value};
use std::alloc::{AllocError, Global};
use std::marker::Model;

/// The number of reports in a full page of a promise.
pub const PAGE_REPORTS: usize = 256;

/// The maximum number of pages of one promise: enough to report every slot.
pub const MAX_PAGES: u32 = 4096;

/// A report of the entry that an acceptor accepted at a slot. A value of `None` is the
/// no-operation.
#[derive(Drop)]
pub struct SlotReport<V> {
    pub slot: u32,
    pub ballot: Ballot,
    pub value: Option<V>,
}

/// The reports of one page of a promise. Contracts see the list.
#[derive(Drop)]
pub struct Reports<V> {
    all: Vec<SlotReport<V>>,
}

impl<V> Model for Reports<V> {
    ghost use Rattle.std.specs.Prelude.{List};
    ghost use Rattle.synod.specs.declared.packet.SlotReport.{SlotReport};

    ghost Value = { List (SlotReport V) };

    ghost view = { λ r. r.all.items };
}

impl<V> Reports<V> {
    ghost use Rattle.std.specs.Prelude.{◌≡◌};

    /// Wraps a list of reports. It does not allocate.
    pub fn new(all: Vec<SlotReport<V>>) -> Self
        ensures { result ≡ all.items }
    {
        Reports { all }
    }

    /// Returns the reports.
    pub fn as_slice(&self) -> &[SlotReport<V>]
        ensures { result.now ≡ self.now }
    {
        self.all.as_slice()
    }
}

/// Returns a copy of the reports.
///
/// Errors: an allocation fails. Cost: each value is copied once.
pub(crate) fn copy_reports<V: Value>(
    alloc: Global,
    reports: &Reports<V>,
) -> Result<Reports<V>, AllocError>
    ensures { IfOk result (λ copy. copy ≡ reports.now) }
{
    let mut all = Vec::new(alloc);
    for report in reports.as_slice() {
        let value = copy_value(&report.value)?;
        all.push(SlotReport {
            slot: report.slot,
            ballot: report.ballot,
            value,
        })?;
    }
    Ok(Reports::new(all))
}

/// The message of a packet.
///
/// Source: Lamport, Paxos Made Simple, 2.2 and 2.3. A `Nack` is an acceptor's answer to a ballot
/// that it refuses. An `Ask` asks for a learned value, and a `Told` passes it on.
#[derive(Drop)]
pub enum Body<V> {
    /// Phase 1(a), for every slot from `first` on.
    Prepare {
        ballot: Ballot,
        first: u32,
    },
    /// Phase 1(b): page `page` of `count`, numbered from 1. The proposer stores it at index
    /// `page - 1`.
    Promise {
        ballot: Ballot,
        page: u32,
        count: u32,
        reports: Reports<V>,
    },
    /// Phase 2(a).
    Accept {
        ballot: Ballot,
        slot: u32,
        value: Option<V>,
    },
    /// Phase 2(b).
    Accepted {
        ballot: Ballot,
        slot: u32,
        value: Option<V>,
    },
    /// The sender refuses `ballot`, since it has promised `promise`.
    Nack {
        ballot: Ballot,
        promise: Ballot,
    },
    /// A learner asks for the value chosen at a slot.
    Ask {
        slot: u32,
    },
    /// The value chosen at a slot, in answer to an Ask.
    Told {
        slot: u32,
        value: Option<V>,
    },
}

/// A packet with its sender and its receiver.
#[derive(Drop)]
pub struct Packet<V> {
    pub from: u8,
    pub to: u8,
    pub body: Body<V>,
}
