//! The frames of the assertions of two worked examples.
ghost use Rattle.mm_read.specs.Statements.{AreShaped};

use frame::{Frame, frame};
use mm_read::{Stmt, read};
use scope::{Scope, Steps};
use std::alloc::Global;

/// The first example of the Metamath book, up to modus ponens.
const ARITHMETIC: &[u8] = b"$c 0 + = -> ( ) term wff |- $. $v t r s P Q $. \
    tt $f term t $. tr $f term r $. ts $f term s $. wp $f wff P $. wq $f wff Q $. \
    tze $a term 0 $. tpl $a term ( t + r ) $. weq $a wff t = r $. wim $a wff ( P -> Q ) $. \
    a1 $a |- ( t = r -> ( t = s -> r = s ) ) $. a2 $a |- ( t + 0 ) = t $. \
    ${ min $e |- P $. maj $e |- ( P -> Q ) $. mp $a |- Q $. $}";

/// A `$d` on the variables of `ax`, and one on a dummy variable of `th`.
const DISJOINT: &[u8] = b"$c wff |- R $. $v x y z $. wx $f wff x $. wy $f wff y $. wz $f wff z $. \
    ${ $d x y $. ax $a |- x R y $. $} ${ h $e |- x R y $. r $a |- R x $. $} \
    ${ $d x z $. th $p |- R x $= wx wz wx wz ax r $. $}";

/// A text, the number of statements before an assertion, and the assertion's frame: the positions
/// of its mandatory hypotheses (counted from 1 in the whole text), its one group of disjoint
/// variables, empty if it has none, and its conclusion.
const CASES: [(&[u8], usize, &[usize], &[u8], &[u8]); 5] = [
    (ARITHMETIC, 16, &[6, 7, 15, 16], b"", b"|- Q"),
    (
        ARITHMETIC,
        11,
        &[3, 4, 5],
        b"",
        b"|- ( t = r -> ( t = s -> r = s ) )",
    ),
    (ARITHMETIC, 7, &[], b"", b"term 0"),
    (DISJOINT, 7, &[3, 4], b"x y", b"|- x R y"),
    (DISJOINT, 15, &[3], b"", b"|- R x"),
];

#[test]
fn assertions_have_their_frames(rt: HostRuntime) {
    for (text, count, hypotheses, group, conclusion) in CASES {
        let frame = frame_after(rt.alloc(), text, count);
        assert!(rt;
            is_frame(frame, hypotheses, group, conclusion),
            "{conclusion:?}"
        );
    }
}

/// Returns the frame of the assertion after the first `count` statements of a text.
fn frame_after(alloc: Global, text: &[u8], count: usize) -> Option<Frame> {
    match read(alloc, text) {
        Ok(statements) => frame_at(alloc, statements.as_slice(), count),
        Err(_) => None,
    }
}

/// Returns the frame of the assertion after the first `count` of these statements.
fn frame_at(alloc: Global, statements: &[Stmt], count: usize) -> Option<Frame>
    requires { AreShaped statements.now }
{
    let mut scope = Scope::new(alloc);
    frame_in(alloc, &mut scope, statements, count)
}

/// Adds the first `count` statements to the scope, and returns the frame of the next one.
fn frame_in(alloc: Global, scope: &mut Scope, statements: &[Stmt], count: usize) -> Option<Frame>
    requires { AreShaped statements.now }
{
    for stmt in statements {
        if scope.len() == count {
            return frame_of(alloc, scope, stmt);
        }
        // `Steps` counts the statements that are given; contracts alone see the count.
        scope.add(stmt, &mut Steps::new()).ok()?;
    }
    None
}

/// Returns the frame of the statement, if it is a `$a` or a `$p`.
fn frame_of(alloc: Global, scope: &Scope, stmt: &Stmt) -> Option<Frame> {
    match stmt {
        Stmt::Axiom { .. } => frame(alloc, scope, stmt).ok(),
        Stmt::Prove { .. } => frame(alloc, scope, stmt).ok(),
        _ => None,
    }
}

/// Returns whether the frame has these mandatory hypotheses, this one group (none if it is empty),
/// and this conclusion.
fn is_frame(frame: Option<Frame>, hypotheses: &[usize], group: &[u8], conclusion: &[u8]) -> bool {
    match frame {
        Some(frame) => {
            frame.hypotheses() == hypotheses
                && is_only_group(&frame, group)
                && frame.conclusion().as_text() == conclusion
        }
        None => false,
    }
}

/// Returns whether the variables of this text are the frame's only group, or the frame has no group
/// if the text is empty.
fn is_only_group(frame: &Frame, text: &[u8]) -> bool {
    match frame.groups().first() {
        Some(group) => frame.groups().len() == 1 && group.as_text() == text,
        None => text.is_empty(),
    }
}
