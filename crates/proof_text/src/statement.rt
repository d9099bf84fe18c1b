//! The statement of a request.
ghost use Rattle.std.specs.Prelude.{◌≡◌, IsTrue, Some};
ghost use Rattle.scope.specs.Active.{is_provable, stmt_at};
ghost use Rattle.proof_text.specs.Requests.{IsRequest};

use crate::request::TextRequest;
use mm_read::Stmt;

/// Returns the `$p` of a request.
pub(crate) fn statement_of<'a>(request: &TextRequest<'a>) -> &'a Stmt
    requires { IsRequest request.now }
    ensures stands { stmt_at request.now.statements.now request.now.at ≡ Some result.now }
    ensures provable { IsTrue (is_provable result.now) }
{
    &request.statements[request.at - 1]
}
