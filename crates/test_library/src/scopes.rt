//! A scope can be copied, with ample memory.
ghost use Rattle.mm_read.specs.Statements.{AreShaped};

use mm_read::{Stmt, read};
use scope::{Scope, Steps};
use std::alloc::Global;

/// A text with a `$c`, a comment, a `$a` and a `$p`.
const SMALL_TEXT: &[u8] = b"$c |- $. $( hi $) p $a |- $. q $p |- $= p $.";

#[test]
fn copies_after_each_statement(rt: HostRuntime) {
    assert!(rt; copies_each(rt.alloc(), SMALL_TEXT));
}

/// Returns whether the statements of the text are added, and the scope can be copied after each.
fn copies_each(alloc: Global, text: &[u8]) -> bool {
    let mut scope = Scope::new(alloc);
    adds_each(alloc, &mut scope, text)
}

/// Returns whether the statements of the text are added to this scope, and it can be copied after
/// each.
fn adds_each(alloc: Global, scope: &mut Scope, text: &[u8]) -> bool {
    match read(alloc, text) {
        Ok(statements) => adds_all(scope, statements.as_slice()),
        Err(_) => false,
    }
}

/// Returns whether these statements are added to the scope, and it can be copied after each.
fn adds_all(scope: &mut Scope, statements: &[Stmt]) -> bool
    requires { AreShaped statements.now }
{
    for stmt in statements {
        // `Steps` counts the statements that are given; contracts alone see the count.
        if scope.add(stmt, &mut Steps::new()).is_err() || !has_copy(scope) {
            return false;
        }
    }
    true
}

/// Returns whether the scope can be copied.
fn has_copy(scope: &Scope) -> bool {
    scope.copy().is_ok()
}
