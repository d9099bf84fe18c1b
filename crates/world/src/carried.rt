//! Entries as the values that nodes agree on (`Carried`), and events that carry them.
ghost use Rattle.std.specs.Prelude.{◌≡◌, IfOk};
ghost use Rattle.world.specs.Carried.{value_event, entry_of, entries_of};
ghost use Rattle.world.specs.WorldView.{node_restarted};

use library::Entry;
use net::Event;
use std::alloc::{AllocError, Global};
use synod::Value;

/// An entry as a value that the nodes agree on: packets carry it.
#[derive(Drop)]
pub struct Carried(pub Entry);

impl Value for Carried {
    ghost use Rattle.library.specs.LibraryOf.{size_of};

    ghost bytes = { λ c. size_of c.0 };

    fn copy(&self) -> Result<Self, AllocError> {
        Ok(Carried(self.0.copy()?))
    }

    fn size(&self) -> u64 {
        self.0.size() as u64
    }
}

/// Returns the entries of a log of values, each taken out of its `Carried`.
pub(crate) fn entries_of(
    alloc: Global,
    values: Vec<Option<Carried>>,
) -> Result<Vec<Option<Entry>>, AllocError>
    ensures { IfOk result (λ entries. entries.items ≡ entries_of values.items) }
{
    let mut entries = Vec::with_capacity(alloc, values.len())?;
    for value in values {
        entries.push(entry_of(value))?;
    }
    Ok(entries)
}

/// Returns the entry of a value.
fn entry_of(value: Option<Carried>) -> Option<Entry>
    ensures { result ≡ entry_of value }
{
    match value {
        Some(Carried(entry)) => Some(entry),
        None => None,
    }
}

/// Returns the event on values: an offer has its entry as a `Carried`.
pub(crate) fn to_value_event(event: Event<Entry>) -> Event<Carried>
    ensures { result ≡ value_event event }
{
    match event {
        Event::Offer(k, entry) => Event::Offer(k, Carried(entry)),
        Event::Begin(k) => Event::Begin(k),
        Event::Deliver(number) => Event::Deliver(number),
        Event::Restart(k) => Event::Restart(k),
    }
}

/// Returns the node that the event restarts, if it is a restart.
pub(crate) fn restarted_node(event: &Event<Carried>) -> Option<u8>
    ensures { result ≡ node_restarted event.now }
{
    match event {
        Event::Restart(k) => Some(*k),
        _ => None,
    }
}
