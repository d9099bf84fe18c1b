//! Checks the labels of the assertions to extract.
ghost use Rattle.std.specs.Prelude.{◌≡◌, ◌≤◌, [], map, length, Some, None};
ghost use Rattle.mm_read.specs.declared.stmt.Stmt.{Stmt as Statement};
ghost use Rattle.scope.specs.Active.{bares, stmt_at, is_assertion};
ghost use Rattle.frame.specs.AtPosition.{HasLabelsOnce};
ghost use Rattle.extract.specs.declared.fault.ExtractFault.{ExtractFault as Fault};
ghost use Rattle.extract.specs.Labels.{AreValidLabels, IsFirstLabelFault, IsLabelResult};

use crate::fault::ExtractFault;
use crate::label_search::is_among;
use frame::{Frames, is_assertion};
use mm_read::Stmt;

/// Returns the fault of the first label that no assertion has or that occurs earlier in the list;
/// `None` if no label is wrong. Does not allocate.
pub(crate) fn first_label_fault(
    frames: &Frames,
    statements: &[Stmt],
    labels: &[&str],
) -> Option<ExtractFault>
    requires same { frames.now.statements ≡ bares statements.now }
    requires once { HasLabelsOnce frames.now.statements }
    ensures valid { result ≡ None → AreValidLabels statements.now [] (map (λ label. label.now) labels.now) }
    ensures wrong { (fault : Fault) → result ≡ Some fault
        → IsFirstLabelFault statements.now [] (map (λ label. label.now) labels.now) fault }
    ensures only { (fault : Fault) → IsFirstLabelFault statements.now [] (map (λ label. label.now) labels.now) fault
        → result ≡ Some fault }
{
    for index in 0..labels.len() {
        let label = labels[index].as_bytes();
        match label_fault(frames, statements, &labels[..index], label) {
            Some(fault) => return Some(fault),
            None => {}
        }
    }
    None
}

/// Returns the fault of a label that follows `earlier` ones, if it is wrong.
fn label_fault(
    frames: &Frames,
    statements: &[Stmt],
    earlier: &[&str],
    label: &[u8],
) -> Option<ExtractFault>
    requires same { frames.now.statements ≡ bares statements.now }
    requires once { HasLabelsOnce frames.now.statements }
    ensures { IsLabelResult statements.now (map (λ label. label.now) earlier.now) label.now result }
{
    let Some(at) = frames.position(label) else {
        return Some(ExtractFault::NoLabel);
    };
    if is_assertion_at(statements, at) {
        if is_among(label, earlier) {
            Some(ExtractFault::SameLabel)
        } else {
            None
        }
    } else {
        Some(ExtractFault::NotAssertion)
    }
}

/// Returns whether the statement at the position is an assertion.
fn is_assertion_at(statements: &[Stmt], at: usize) -> bool
    requires { (1 ≤ at) × (at ≤ length statements.now) }
    ensures { (s : Statement) → stmt_at statements.now at ≡ Some s → result ≡ is_assertion s }
{
    is_assertion(&statements[at - 1])
}
