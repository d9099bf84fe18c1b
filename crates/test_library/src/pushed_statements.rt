//! Helpers of `derivations` and `pool_workers`: the book's first example; for any text, adding its
//! statements to a scope and frames, and the items of a proof.
ghost use Rattle.std.specs.Prelude.{◌≡◌, ◌∷◌, ◌++◌, [], OnSome, IfSome};
ghost use Rattle.mm_read.specs.Statements.{IsShaped, AreShaped, Database};
ghost use Rattle.scope.specs.Active.{bare};

use frame::Frames;
use mm_lex::Words;
use mm_read::Stmt;
use proof_code::{CodeFault, Items, is_compressed, normal, packed};
use scope::{Scope, Steps};
use std::alloc::Global;

/// The book's first example, with a normal proof.
pub const NORMAL_EXAMPLE: &[u8] =
    b"$c 0 + = -> ( ) term wff |- $. $v t r s P Q $. tt $f term t $. tr $f term r $. \
    ts $f term s $. wp $f wff P $. wq $f wff Q $. tze $a term 0 $. tpl $a term ( t + r ) $. \
    weq $a wff t = r $. wim $a wff ( P -> Q ) $. a1 $a |- ( t = r -> ( t = s -> r = s ) ) $. \
    a2 $a |- ( t + 0 ) = t $. ${ min $e |- P $. maj $e |- ( P -> Q ) $. mp $a |- Q $. $} \
    th1 $p |- t = t $= tt tze tpl tt weq tt tt weq tt a2 tt tze tpl tt weq tt tze tpl tt weq tt tt weq \
    wim tt a2 tt tze tpl tt tt a1 mp mp $.";

/// The book's first example, with a compressed proof.
pub const COMPRESSED_EXAMPLE: &[u8] =
    b"$c 0 + = -> ( ) term wff |- $. $v t r s P Q $. tt $f term t $. tr $f term r $. \
    ts $f term s $. wp $f wff P $. wq $f wff Q $. tze $a term 0 $. tpl $a term ( t + r ) $. \
    weq $a wff t = r $. wim $a wff ( P -> Q ) $. a1 $a |- ( t = r -> ( t = s -> r = s ) ) $. \
    a2 $a |- ( t + 0 ) = t $. ${ min $e |- P $. maj $e |- ( P -> Q ) $. mp $a |- Q $. $} \
    th1 $p |- t = t $= ( tze tpl weq a2 wim a1 mp ) ABCZADZAADZAEZJJKFLIAAGHH $.";

/// Adds the statement to the scope and the frames, or returns `None` if it is not legal as the next
/// one or an allocation fails; the frames may then have a statement that the scope lacks.
pub fn push_statement(scope: &mut Scope, frames: &mut Frames, stmt: &Stmt) -> Option<()>
    requires same { scope.old.statements ≡ frames.old.statements }
    requires shaped { IsShaped stmt.now }
    ensures same { OnSome result (scope.new.statements ≡ frames.new.statements) }
    ensures added { OnSome result (frames.new.statements ≡ frames.old.statements ++ bare stmt.now ∷ []) }
{
    // `Steps` counts the statements that are given; contracts alone see the count.
    let mut steps = Steps::new();
    if scope.broken_rule(stmt).is_some() {
        return None;
    }
    frames.push(scope, stmt, &mut steps).ok()?;
    scope.add(stmt, &mut steps).ok()
}

/// Adds the statements, and returns the last one, or `None` if there is none, one is not legal, or
/// an allocation fails.
pub fn push_statements<'a>(
    scope: &mut Scope,
    frames: &mut Frames,
    statements: &'a [Stmt],
) -> Option<&'a Stmt>
    requires shaped { AreShaped statements.now }
    requires same { scope.old.statements ≡ frames.old.statements }
    ensures { IfSome result (λ last. (S : Database) × (frames.new.statements ≡ S ++ bare last.now ∷ [])) }
{
    let mut last = None;
    for stmt in statements {
        push_statement(scope, frames, stmt)?;
        last = Some(stmt);
    }
    last
}

/// Returns the items that the tokens, of a compressed or a normal proof, write with these mandatory
/// labels.
pub fn items_of(alloc: Global, tokens: &Words, mandatory: &Words) -> Result<Items, CodeFault> {
    if is_compressed(tokens) {
        packed(alloc, tokens, mandatory)
    } else {
        normal(alloc, tokens)
    }
}
