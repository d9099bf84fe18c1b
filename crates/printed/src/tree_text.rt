//! Derivations and labels as text.
ghost use Rattle.std.specs.Prelude.{◌≡◌, ◌+◌, ◌++◌, flat_map, option_map, IfOk, OnOk};
ghost use Rattle.scope.specs.Active.{stmt_at, label_of};
ghost use Rattle.verify.specs.Derivations.{derivation_of};
ghost use Rattle.verify.specs.Proves.{label_or_empty};
ghost use Rattle.printed.specs.Trees.{label_line, tree_node_line, tree_lines};

use mm_lex::Word;
use mm_read::Stmt;
use std::alloc::AllocError;
use text::push_number;
use verify::Tree;

/// Appends a line for each node of a derivation over these statements, parents before children,
/// children in order: its depth, a space, its label. The root has depth `depth`.
///
/// Errors: an allocation fails, or a depth is 2^64, which no derivation of a library reaches.
pub fn push_tree(
    text: &mut Vec<u8>,
    statements: &[Stmt],
    tree: &Tree,
    depth: u64,
) -> Result<(), AllocError>
    ensures { OnOk result (text.new.items
        ≡ text.old.items ++ tree_lines statements.now depth (derivation_of tree.now)) }
{
    match tree {
        Tree::Hyp(at) => push_tree_node(text, statements, *at, depth),
        Tree::Apply(at, children) => {
            push_tree_node(text, statements, *at, depth)?;
            let below = depth_below(depth)?;
            for child in children {
                push_tree(text, statements, child, below)?;
            }
            Ok(())
        }
    }
}

/// Returns the depth of the children of a node at a depth.
///
/// Errors: the depth of the children is 2^64.
fn depth_below(depth: u64) -> Result<u64, AllocError>
    ensures { IfOk result (λ below. below ≡ depth + 1) }
{
    depth.checked_add(1).ok_or(AllocError)
}

/// Appends a line: the depth, a space, and the label of the statement at a position, from 1.
fn push_tree_node(
    text: &mut Vec<u8>,
    statements: &[Stmt],
    at: usize,
    depth: u64,
) -> Result<(), AllocError>
    ensures { OnOk result (text.new.items ≡ text.old.items ++ tree_node_line statements.now depth at) }
{
    push_number(text, depth)?;
    text.extend_from_slice(b" ")?;
    push_label_at(text, statements, at)?;
    text.extend_from_slice(b"\n")
}

/// Appends the label of the statement at a position, from 1, if it has one.
fn push_label_at(text: &mut Vec<u8>, statements: &[Stmt], at: usize) -> Result<(), AllocError>
    ensures { OnOk result (text.new.items
        ≡ text.old.items ++ label_or_empty (stmt_at statements.now at)) }
{
    if at > 0
        && let Some(statement) = statements.get(at - 1)
        && let Some(label) = label(statement)
    {
        return text.extend_from_slice(label.as_bytes());
    }
    Ok(())
}

/// Returns the label of a statement, if it has one.
fn label(statement: &Stmt) -> Option<&Word>
    ensures { option_map (λ label. label.now) result ≡ label_of statement.now }
{
    match statement {
        Stmt::Float { label, .. }
        | Stmt::Ess { label, .. }
        | Stmt::Axiom { label, .. }
        | Stmt::Prove { label, .. } => Some(label),
        Stmt::Open | Stmt::Close | Stmt::Const(_) | Stmt::Var(_) | Stmt::Disj(_) => None,
    }
}

/// Appends a line for each label.
pub fn push_labels(text: &mut Vec<u8>, labels: &[Word]) -> Result<(), AllocError>
    ensures { OnOk result (text.new.items ≡ text.old.items ++ flat_map label_line labels.now) }
{
    for label in labels {
        push_label(text, label)?;
    }
    Ok(())
}

/// Appends a label and a line feed.
fn push_label(text: &mut Vec<u8>, label: &Word) -> Result<(), AllocError>
    ensures { OnOk result (text.new.items ≡ text.old.items ++ label_line label.now) }
{
    text.extend_from_slice(label.as_bytes())?;
    text.extend_from_slice(b"\n")
}
