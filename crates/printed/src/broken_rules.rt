//! The first statement of a database that breaks a rule.
ghost use Rattle.std.specs.Prelude.{◌≡◌, [], IfOk};
ghost use Rattle.mm_read.specs.Statements.{AreShaped};
ghost use Rattle.scope.specs.Legal.{first_broken};

use mm_read::Stmt;
use scope::{Rule, Scope, Steps};
use std::alloc::{AllocError, Global};

/// Finds the first statement that breaks a rule, and returns its number, counted from 1, and the
/// least rule that it breaks. A block that is open at the end breaks G10 and counts as one more
/// statement. Returns `None` if no statement breaks a rule.
///
/// Errors: an allocation fails. Cost: the size of the statements.
/// Source: Metamath, chapter 4.
pub fn first_broken_rule(
    alloc: Global,
    statements: &[Stmt],
) -> Result<Option<(usize, Rule)>, AllocError>
    requires { AreShaped statements.now }
    ensures { IfOk result (λ found. found ≡ first_broken 1 [] statements.now) }
{
    let mut scope = Scope::new(alloc);
    first_broken_in(&mut scope, statements)
}

/// Adds the statements to an empty scope, up to the first that breaks a rule, and returns that one.
fn first_broken_in(
    scope: &mut Scope,
    statements: &[Stmt],
) -> Result<Option<(usize, Rule)>, AllocError>
    requires shaped { AreShaped statements.now }
    requires empty { scope.old.statements ≡ [] }
    ensures { IfOk result (λ found. found ≡ first_broken 1 [] statements.now) }
{
    // Counts the statements that the scope is given, for contracts alone; has no size at run time.
    let mut steps = Steps::new();
    for (index, statement) in statements.iter().enumerate() {
        if let Err(rule) = scope.add(statement, &mut steps) {
            if rule == Rule::Memory {
                return Err(AllocError);
            }
            return Ok(Some((index + 1, rule)));
        }
    }
    match scope.close_at_end() {
        Ok(()) => Ok(None),
        Err(rule) => Ok(Some((statements.len() + 1, rule))),
    }
}
