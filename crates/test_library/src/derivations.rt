//! Both proofs of the book's first theorem, normal and compressed, are correct, and the tree of
//! each has 34 nodes.
ghost use Rattle.std.specs.Prelude.{◌≡◌, ◌∷◌, ◌++◌, []};
ghost use Rattle.mm_read.specs.Statements.{AreShaped, Database};
ghost use Rattle.scope.specs.Active.{bare};

use crate::pushed_statements::{COMPRESSED_EXAMPLE, NORMAL_EXAMPLE, items_of, push_statements};
use frame::Frames;
use mm_lex::Words;
use mm_read::{Stmt, read};
use scope::Scope;
use std::alloc::Global;
use verify::{Answer, Tree, TreeFault, check, derivation};

/// If an allocation fails, the same call made again returns the number of nodes.
#[test]
fn correct_after_a_failed_allocation(rt: HostRuntime) {
    for text in [NORMAL_EXAMPLE, COMPRESSED_EXAMPLE] {
        let mut node_count = node_count_of_text(rt.alloc(), text);
        if node_count.is_none() {
            node_count = node_count_of_text(rt.alloc(), text);
        }
        assert_eq!(rt; node_count, Some(34));
    }
}

/// Returns the number of nodes of the tree of the text's last proof: 0 if the proof is wrong or its
/// tree is too large, `None` if an allocation fails, the text does not read or is not legal, or its
/// last statement has no proof that writes items.
/// The symbols of a `$c` serve as the list of the theorem's mandatory labels, which is `tt` alone.
fn node_count_of_text(alloc: Global, text: &[u8]) -> Option<usize> {
    match (read(alloc, text), read(alloc, b"$c tt $.")) {
        (Ok(statements), Ok(labels)) => match labels.first() {
            Some(Stmt::Const(mandatory)) => node_count_of_last(
                alloc,
                statements.as_slice(),
                mandatory,
            ),
            _ => None,
        },
        _ => None,
    }
}

/// Returns the number of nodes for the last of these statements, whose mandatory labels are given.
fn node_count_of_last(alloc: Global, statements: &[Stmt], mandatory: &Words) -> Option<usize>
    requires { AreShaped statements.now }
{
    let mut scope = Scope::new(alloc);
    let mut frames = Frames::new(alloc);
    let node_count = node_count_in(alloc, statements, mandatory, &mut scope, &mut frames);
    // An explicit `drop` is proved once for each type; a drop at the end of the scope would be
    // proved here.
    drop(frames);
    drop(scope);
    node_count
}

/// Adds the statements to the scope and the frames, which are empty, and returns the number of
/// nodes for the last one.
fn node_count_in(
    alloc: Global,
    statements: &[Stmt],
    mandatory: &Words,
    scope: &mut Scope,
    frames: &mut Frames,
) -> Option<usize>
    requires shaped { AreShaped statements.now }
    requires same { scope.old.statements ≡ frames.old.statements }
{
    let last = push_statements(scope, frames, statements)?;
    node_count_at(alloc, frames, last, mandatory)
}

/// Returns the number of nodes for this statement, the one that was pushed last.
fn node_count_at(alloc: Global, frames: &Frames, stmt: &Stmt, mandatory: &Words) -> Option<usize>
    requires { (S : Database) × (frames.now.statements ≡ S ++ bare stmt.now ∷ []) }
{
    if let Stmt::Prove { proof, .. } = stmt {
        let at = frames.len();
        let items = items_of(alloc, proof, mandatory).ok()?;
        match check(alloc, frames, at, &items).ok()? {
            Answer::Proved => {}
            Answer::Wrong | Answer::TooCostly => return Some(0),
        }
        match derivation(alloc, frames, at, &items) {
            Ok(tree) => Some(count_nodes(&tree)),
            Err(TreeFault::Memory) => None,
            Err(_) => Some(0),
        }
    } else {
        None
    }
}

/// Returns how many nodes a tree has.
fn count_nodes(tree: &Tree) -> usize {
    match tree {
        Tree::Hyp(_) => 1,
        Tree::Apply(_, children) => {
            let mut node_count = 1usize;
            for child in children {
                node_count = node_count.saturating_add(count_nodes(child));
            }
            node_count
        }
    }
}
