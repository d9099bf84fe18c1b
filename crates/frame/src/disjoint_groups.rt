//! The groups of an assertion: for each active `$d` its mandatory variables.
ghost use Rattle.std.specs.Prelude.{◌≡◌, ◌+◌, ◌-◌, ◌≤◌, length, take, IfOk, OnOk};
ghost use Rattle.entries.specs.Stored.Spans.{cut, AreSpansIn};
ghost use Rattle.frame.specs.Stored.AssertionParts.{disjoint_symbols, groups_in, with_group};
ghost use Rattle.frame.specs.Stored.EntryMeanings.{statements_of};
ghost use Rattle.frame.specs.Stored.Whole.{AreStored};

use crate::at_position::last_active_at;
use crate::storage::Storage;
use entries::buffer_part::between;
use entries::{BufferPart, Groups};
use scope::Stack;
use std::alloc::{AllocError, Global};
use std::marker::Model;

/// The groups of an assertion, as they are printed: for each active `$d` its mandatory variables,
/// if they are two or more. Contracts see the list of the groups, by numbers.
#[derive(Drop)]
pub struct DisjointGroups {
    /// The variables of the groups, one group after another.
    variables: Vec<u32>,
    /// Where each group stands in `variables`.
    groups: Vec<BufferPart>,
}

impl Model for DisjointGroups {
    ghost use Rattle.std.specs.Prelude.{ℕ, List, length};
    ghost use Rattle.entries.specs.Stored.Spans.{cut, AreSpansIn};

    ghost Value = { List (List ℕ) };

    ghost view = { λ a. cut a.variables.items a.groups.items };

    ghost invariant = { λ a. AreSpansIn (length a.variables.items) a.groups.items };
}

impl DisjointGroups {
    /// Returns a view of the groups.
    pub fn as_groups(&self) -> Groups<'_>
        ensures { result ≡ self.now }
    {
        Groups::new(&self.groups, &self.variables)
    }
}

/// Appends a group of those symbols that are among the variables, if they are two or more.
///
/// Errors: an allocation fails.
fn add_group(
    variables: &Stack,
    codes: &[u32],
    grouped_variables: &mut Vec<u32>,
    groups: &mut Vec<BufferPart>,
) -> Result<(), AllocError>
    requires within { AreSpansIn (length grouped_variables.old.items) groups.old.items }
    ensures added { OnOk result
        (cut grouped_variables.new.items groups.new.items
        ≡ with_group variables.now codes.now (cut grouped_variables.old.items groups.old.items)) }
    ensures within { AreSpansIn (length grouped_variables.new.items) groups.new.items }
{
    let from = grouped_variables.len();
    for code in codes {
        if variables.index_of(*code).is_some() {
            grouped_variables.push(*code)?;
        }
    }
    let to = grouped_variables.len();
    if to > from + 1 {
        let span = between(from, to)?;
        groups.push(span)?;
    } else {
        grouped_variables.truncate(from);
    }
    Ok(())
}

/// Returns, for each `$d` that is active at `at`, those of its symbols that are among the
/// variables, if they are two or more.
///
/// Errors: an allocation fails. Cost: the symbols of the active `$d`.
pub fn find_groups(
    alloc: Global,
    storage: &Storage,
    at: usize,
    variables: &Stack,
) -> Result<DisjointGroups, AllocError>
    requires stored { AreStored storage.now }
    requires place { (1 ≤ at) × (at ≤ length (statements_of storage.now) + 1) }
    ensures { IfOk result
        (λ groups. groups
        ≡ groups_in variables.now (disjoint_symbols storage.now.entries (take (at - 1) (statements_of storage.now)))) }
{
    let mut grouped_variables = Vec::new(alloc);
    let mut groups = Vec::new(alloc);
    let mut last = last_active_at(storage, at).disjoint;
    while last != 0 {
        let entry = storage.entries.entry(last as usize - 1);
        add_group(
            variables,
            entry.symbols,
            &mut grouped_variables,
            &mut groups,
        )?;
        last = entry.before.last_active.disjoint;
    }
    groups.reverse();
    Ok(DisjointGroups {
        variables: grouped_variables,
        groups,
    })
}
