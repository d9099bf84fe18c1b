//! The state that a node reports, as text.
ghost use Rattle.std.specs.Prelude.{◌≡◌, ◌++◌, OnOk};
ghost use Rattle.printed.specs.States.{role_text, role_and_promise, count_text, counts_text};
ghost use Rattle.printed.specs.States.{line_end_text, state_text};

use crate::packets::push_ballot;
use std::alloc::AllocError;
use synod::{NodeState, Role};
use text::push_number;

/// Appends a line of the state of a node: its role with the ballot, the ballot that it promised,
/// how many entries its log has, how many of them were applied, how many values wait until the node
/// leads, and whether it is down.
pub fn push_state(
    text: &mut Vec<u8>,
    state: &NodeState,
    applied: u32,
    is_down: bool,
) -> Result<(), AllocError>
    ensures { OnOk result (text.new.items ≡ text.old.items ++ state_text state.now applied is_down) }
{
    push_role_and_promise(text, state)?;
    push_counts(text, state, applied)?;
    push_line_end(text, is_down)
}

/// Appends the role, and the ballot that the node promised.
fn push_role_and_promise(text: &mut Vec<u8>, state: &NodeState) -> Result<(), AllocError>
    ensures { OnOk result (text.new.items ≡ text.old.items ++ role_and_promise state.now) }
{
    push_role(text, state.role)?;
    text.extend_from_slice(b" promise ")?;
    push_ballot(text, state.promise)
}

/// Appends how many entries the node's log has, how many were applied, and how many values wait.
fn push_counts(text: &mut Vec<u8>, state: &NodeState, applied: u32) -> Result<(), AllocError>
    ensures { OnOk result (text.new.items ≡ text.old.items ++ counts_text state.now applied) }
{
    push_count(text, b" learned ", u64::from(state.log_len))?;
    push_count(text, b" applied ", u64::from(applied))?;
    push_count(text, b" waiting ", state.waiting as u64)
}

/// Appends the role, with its ballot if it has one.
fn push_role(text: &mut Vec<u8>, role: Role) -> Result<(), AllocError>
    ensures { OnOk result (text.new.items ≡ text.old.items ++ role_text role) }
{
    match role {
        Role::Idle => text.extend_from_slice(b"idle"),
        Role::Preparing { ballot, .. } => {
            text.extend_from_slice(b"preparing ")?;
            push_ballot(text, ballot)
        }
        Role::Leading { ballot, .. } => {
            text.extend_from_slice(b"leading ")?;
            push_ballot(text, ballot)
        }
    }
}

/// Appends a name and a number.
pub(crate) fn push_count(text: &mut Vec<u8>, name: &[u8], number: u64) -> Result<(), AllocError>
    ensures { OnOk result (text.new.items ≡ text.old.items ++ count_text name.now number) }
{
    text.extend_from_slice(name)?;
    push_number(text, number)
}

/// Appends the end of the line: ` down` if the node is down, and a line feed.
fn push_line_end(text: &mut Vec<u8>, is_down: bool) -> Result<(), AllocError>
    ensures { OnOk result (text.new.items ≡ text.old.items ++ line_end_text is_down) }
{
    let down = if is_down { b" down".as_slice() } else { b"" };
    text.extend_from_slice(down)?;
    text.extend_from_slice(b"\n")
}
