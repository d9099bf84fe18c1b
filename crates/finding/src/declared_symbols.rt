//! Whether a database has the symbols of a pattern.
ghost use Rattle.std.specs.Prelude.{◌≡◌, option_map};
ghost use Rattle.mm_lex.specs.Alphabet.{has_name};
ghost use Rattle.finding.specs.DeclaredSymbols.{declares, is_declared, undeclared_part};
ghost use Rattle.finding.specs.Segments.{part_view};

use crate::part::Part;
use mm_lex::Words;
use mm_read::Stmt;

/// Returns the symbol of a part of a pattern if no `$c` and no `$v` of the statements declares it.
///
/// Does not allocate. Cost: the declarations.
pub(crate) fn undeclared_part<'a>(part: Part<'a>, statements: &[Stmt]) -> Option<&'a [u8]>
    ensures { option_map (λ x. x.now) result ≡ undeclared_part statements.now (part_view part.entry) }
{
    match part {
        Part::Symbol(name) => {
            if is_declared(statements, name) {
                None
            } else {
                Some(name)
            }
        }
        Part::AnySymbol => None,
        Part::AnySequence => None,
    }
}

/// Returns whether one of the statements declares a symbol.
fn is_declared(statements: &[Stmt], name: &[u8]) -> bool
    ensures { result ≡ is_declared statements.now name.now }
{
    statements.iter().any(|statement| declares(statement, name))
}

/// Returns whether a statement declares a symbol.
fn declares(statement: &Stmt, name: &[u8]) -> bool
    ensures { result ≡ declares name.now statement.now }
{
    match statement {
        Stmt::Const(names) => contains_name(names, name),
        Stmt::Var(names) => contains_name(names, name),
        _ => false,
    }
}

/// Returns whether a name is one of these.
fn contains_name(names: &Words, name: &[u8]) -> bool
    ensures { result ≡ has_name name.now names.now }
{
    names.iter().any(|other| name == other)
}
