//! Finds a violation of a rule, with a function for each rule that needs a search, and a block that
//! is open at the end.
ghost use Rattle.std.specs.Prelude.{◌≡◌, ◌==◌, ◌&&◌, ◌∷◌, [], true, false, IfOk, MatchOption};
ghost use Rattle.std.specs.List.{list_any};
ghost use Rattle.scope.specs.Active.{active, count, is_close, is_constant, is_open};
ghost use Rattle.scope.specs.Legal.{starts_with_constant};
ghost use Rattle.scope.specs.declared.rule.Rule.TheVariants as rule;
ghost use Rattle.rule_violation.specs.Search.{has_name_in, has_fault, IsLastActiveAt};
ghost use Rattle.rule_violation.specs.declared.search.NameRole.TheVariants as name_role;
ghost use Rattle.rule_violation.specs.declared.symbol_search.SymbolFault.TheVariants as fault;
ghost use Rattle.rule_violation.specs.Violations.{IsConstantViolation, IsFirstNotConstant};
ghost use Rattle.rule_violation.specs.Violations.{IsLabelConflict, IsSymbolViolation};
ghost use Rattle.rule_violation.specs.Violations.{IsViolationIfBroken};

use crate::search::{NameRole, closed_blocks_from, find_active, find_earlier};
use crate::symbol_search::{
    SymbolFault, first_repeated, first_with_fault, is_constant, is_known_symbol, is_variable,
};
use crate::violation::RuleViolation;
use mm_lex::{Word, Words};
use mm_read::Stmt;
use scope::Rule;
use std::alloc::{AllocError, Global};

/// Returns a violation of a rule that a statement breaks after the earlier ones, or `None` exactly
/// if it keeps the rule. `scope::Rule` lists the rules G1 to G10, and has `Memory` for a failed
/// allocation, which is no rule: every statement keeps it.
///
/// Errors: an allocation fails. Cost: a few passes over the earlier statements; each of their
/// labels, declared symbols and variables of `$f`s is looked up among the symbols of the statement
/// or compared with one name.
pub fn violation_of(
    alloc: Global,
    earlier: &[Stmt],
    stmt: &Stmt,
    rule: Rule,
) -> Result<Option<RuleViolation>, AllocError>
    ensures { IfOk result (IsViolationIfBroken earlier.now stmt.now rule) }
{
    match rule {
        Rule::G1 => Ok(block_violation(earlier, stmt)),
        Rule::G2 => constants_violation(alloc, earlier, stmt),
        Rule::G3 => variables_violation(alloc, earlier, stmt),
        Rule::G4 => Ok(label_violation(earlier, stmt)),
        Rule::G5 => expression_violation(alloc, earlier, stmt),
        Rule::G6 => Ok(typecode_violation(earlier, stmt)),
        Rule::G7 => Ok(float_violation(earlier, stmt)),
        Rule::G8 => disjoint_violation(alloc, earlier, stmt),
        Rule::G9 => untyped_violation(alloc, earlier, stmt),
        Rule::G10 => Ok(closing_violation(earlier, stmt)),
        Rule::Memory => Ok(None),
    }
}

/// Returns a violation of G1 by a `$c` inside a block.
fn block_violation(earlier: &[Stmt], stmt: &Stmt) -> Option<RuleViolation>
    ensures { IsViolationIfBroken earlier.now stmt.now rule.G1 result }
{
    let Stmt::Const(_) = stmt else {
        return None;
    };
    if count_opening(earlier) == count_closing(earlier) {
        None
    } else {
        Some(RuleViolation::Statement)
    }
}

/// Returns a violation of G10 by a `$}` that closes no block.
fn closing_violation(earlier: &[Stmt], stmt: &Stmt) -> Option<RuleViolation>
    ensures { IsViolationIfBroken earlier.now stmt.now rule.G10 result }
{
    let Stmt::Close = stmt else {
        return None;
    };
    if count_closing(earlier) < count_opening(earlier) {
        None
    } else {
        Some(RuleViolation::Statement)
    }
}

/// Returns how many of the statements are `${`.
fn count_opening(statements: &[Stmt]) -> usize
    ensures { result ≡ count is_open statements.now }
{
    let mut opening = 0usize;
    for stmt in statements {
        if matches!(stmt, Stmt::Open) {
            opening += 1;
        }
    }
    opening
}

/// Returns how many of the statements are `$}`.
fn count_closing(statements: &[Stmt]) -> usize
    ensures { result ≡ count is_close statements.now }
{
    let mut closing = 0usize;
    for stmt in statements {
        if matches!(stmt, Stmt::Close) {
            closing += 1;
        }
    }
    closing
}

/// Returns a violation of G2 by a symbol of a `$c`.
fn constants_violation(
    alloc: Global,
    earlier: &[Stmt],
    stmt: &Stmt,
) -> Result<Option<RuleViolation>, AllocError>
    ensures { IfOk result (IsViolationIfBroken earlier.now stmt.now rule.G2) }
{
    let Stmt::Const(names) = stmt else {
        return Ok(None);
    };
    let Some((symbol_index, name)) = first_with_fault(
        alloc,
        earlier,
        names,
        SymbolFault::AlreadyUsed,
    )?
    else {
        return first_repeated(alloc, names);
    };
    match find_earlier(earlier, NameRole::LabelOrSymbol, name) {
        Some(earlier_position) => Ok(Some(RuleViolation::SymbolConflict {
            symbol_index,
            earlier_position,
        })),
        None => Ok(None),
    }
}

/// Returns a violation of G3 by a symbol of a `$v`.
fn variables_violation(
    alloc: Global,
    earlier: &[Stmt],
    stmt: &Stmt,
) -> Result<Option<RuleViolation>, AllocError>
    ensures { IfOk result (IsViolationIfBroken earlier.now stmt.now rule.G3) }
{
    let Stmt::Var(names) = stmt else {
        return Ok(None);
    };
    let Some((symbol_index, name)) = first_with_fault(
        alloc,
        earlier,
        names,
        SymbolFault::NotNewVariable,
    )?
    else {
        return first_repeated(alloc, names);
    };
    if let Some(earlier_position) = find_active(earlier, NameRole::DeclaredVariable, name) {
        return Ok(Some(RuleViolation::SymbolConflict {
            symbol_index,
            earlier_position,
        }));
    }
    match find_earlier(earlier, NameRole::LabelOrConstant, name) {
        Some(earlier_position) => Ok(Some(RuleViolation::SymbolConflict {
            symbol_index,
            earlier_position,
        })),
        None => Ok(None),
    }
}

/// Returns a violation of G4 by the label.
fn label_violation(earlier: &[Stmt], stmt: &Stmt) -> Option<RuleViolation>
    ensures { IsViolationIfBroken earlier.now stmt.now rule.G4 result }
{
    match stmt {
        Stmt::Float { label, .. } => label_conflict(earlier, label),
        Stmt::Ess { label, .. } => label_conflict(earlier, label),
        Stmt::Axiom { label, .. } => label_conflict(earlier, label),
        Stmt::Prove { label, .. } => label_conflict(earlier, label),
        _ => None,
    }
}

/// Returns the first statement that has the label or declares it as a symbol, as a violation of G4,
/// or `None`.
fn label_conflict(earlier: &[Stmt], label: &Word) -> Option<RuleViolation>
    ensures { MatchOption result (list_any (has_name_in name_role.LabelOrSymbol label.now) earlier.now ≡ false)
        (IsLabelConflict earlier.now label.now) }
{
    match find_earlier(earlier, NameRole::LabelOrSymbol, label.as_bytes()) {
        Some(earlier_position) => Some(RuleViolation::LabelConflict { earlier_position }),
        None => None,
    }
}

/// Returns a violation of G5 by a symbol of the expression.
fn expression_violation(
    alloc: Global,
    earlier: &[Stmt],
    stmt: &Stmt,
) -> Result<Option<RuleViolation>, AllocError>
    ensures { IfOk result (IsViolationIfBroken earlier.now stmt.now rule.G5) }
{
    match stmt {
        Stmt::Float {
            constant,
            variable,
            ..
        } => Ok(unknown_symbol(earlier, constant, variable)),
        Stmt::Ess { expr, .. } => faulty_symbol(alloc, earlier, expr, SymbolFault::Unknown),
        Stmt::Axiom { expr, .. } => faulty_symbol(alloc, earlier, expr, SymbolFault::Unknown),
        Stmt::Prove { expr, .. } => faulty_symbol(alloc, earlier, expr, SymbolFault::Unknown),
        _ => Ok(None),
    }
}

/// Returns the first of the two symbols of a `$f` that is neither a constant nor an active
/// variable, by its index, or `None`.
#[tactic(auto, using(crate::proofs::ViolationLemmas::known_both, crate::proofs::ViolationLemmas::unknown_at))]
fn unknown_symbol(earlier: &[Stmt], constant: &Word, variable: &Word) -> Option<RuleViolation>
    ensures { MatchOption result
        (list_any (has_fault earlier.now fault.Unknown) (constant.now ∷ variable.now ∷ []) ≡ false)
        (IsSymbolViolation (constant.now ∷ variable.now ∷ []) (has_fault earlier.now fault.Unknown)) }
{
    if !is_known_symbol(earlier, constant.as_bytes()) {
        return Some(RuleViolation::Symbol { symbol_index: 0 });
    }
    if !is_known_symbol(earlier, variable.as_bytes()) {
        return Some(RuleViolation::Symbol { symbol_index: 1 });
    }
    None
}

/// Returns the first of the symbols with this fault, by its index, or `None` if none has it.
fn faulty_symbol(
    alloc: Global,
    earlier: &[Stmt],
    names: &Words,
    fault: SymbolFault,
) -> Result<Option<RuleViolation>, AllocError>
    ensures { IfOk result
        (λ found. MatchOption found (list_any (has_fault earlier.now fault) names.now ≡ false)
        (IsSymbolViolation names.now (has_fault earlier.now fault))) }
{
    match first_with_fault(alloc, earlier, names, fault)? {
        Some((symbol_index, _)) => Ok(Some(RuleViolation::Symbol { symbol_index })),
        None => Ok(None),
    }
}

/// Returns a violation of G6 by the first symbol of the expression.
fn typecode_violation(earlier: &[Stmt], stmt: &Stmt) -> Option<RuleViolation>
    ensures { IsViolationIfBroken earlier.now stmt.now rule.G6 result }
{
    match stmt {
        Stmt::Float { constant, .. } => float_typecode_violation(earlier, constant),
        Stmt::Ess { expr, .. } => first_not_constant(earlier, expr),
        Stmt::Axiom { expr, .. } => first_not_constant(earlier, expr),
        Stmt::Prove { expr, .. } => first_not_constant(earlier, expr),
        _ => None,
    }
}

/// Returns the first symbol of a `$f` if it is not a constant, else `None`.
fn float_typecode_violation(earlier: &[Stmt], constant: &Word) -> Option<RuleViolation>
    ensures { MatchOption result (is_constant earlier.now constant.now ≡ true)
        (IsConstantViolation earlier.now constant.now) }
{
    not_constant(earlier, constant.as_bytes())
}

/// Returns the first of the symbols if it is not a constant, else `None`.
fn first_not_constant(earlier: &[Stmt], names: &Words) -> Option<RuleViolation>
    ensures { MatchOption result (starts_with_constant earlier.now names.now ≡ true)
        (IsFirstNotConstant earlier.now names.now) }
{
    match names.iter().next() {
        Some(first) => not_constant(earlier, first),
        None => None,
    }
}

/// Returns a first symbol if it is not a constant, else `None`.
fn not_constant(earlier: &[Stmt], first: &[u8]) -> Option<RuleViolation>
    ensures { MatchOption result (is_constant earlier.now first.now ≡ true)
        (IsConstantViolation earlier.now first.now) }
{
    if is_constant(earlier, first) {
        None
    } else {
        Some(RuleViolation::Symbol { symbol_index: 0 })
    }
}

/// Returns a violation of G7 by the second symbol of a `$f`.
#[tactic(auto, using(crate::proofs::ViolationLemmas::G7_kept))]
fn float_violation(earlier: &[Stmt], stmt: &Stmt) -> Option<RuleViolation>
    ensures { IsViolationIfBroken earlier.now stmt.now rule.G7 result }
{
    let Stmt::Float { variable, .. } = stmt else {
        return None;
    };
    match find_active(earlier, NameRole::FloatVariable, variable.as_bytes()) {
        Some(earlier_position) => Some(RuleViolation::SymbolConflict {
            symbol_index: 1,
            earlier_position,
        }),
        None => {
            if is_variable(earlier, variable.as_bytes()) {
                None
            } else {
                Some(RuleViolation::Symbol { symbol_index: 1 })
            }
        }
    }
}

/// Returns a violation of G8 by a symbol of a `$d`.
fn disjoint_violation(
    alloc: Global,
    earlier: &[Stmt],
    stmt: &Stmt,
) -> Result<Option<RuleViolation>, AllocError>
    ensures { IfOk result (IsViolationIfBroken earlier.now stmt.now rule.G8) }
{
    let Stmt::Disj(names) = stmt else {
        return Ok(None);
    };
    match faulty_symbol(alloc, earlier, names, SymbolFault::NotActiveVariable)? {
        Some(violation) => Ok(Some(violation)),
        None => first_repeated(alloc, names),
    }
}

/// Returns a violation of G9 by a variable of a `$e`, `$a` or `$p`.
fn untyped_violation(
    alloc: Global,
    earlier: &[Stmt],
    stmt: &Stmt,
) -> Result<Option<RuleViolation>, AllocError>
    ensures { IfOk result (IsViolationIfBroken earlier.now stmt.now rule.G9) }
{
    match stmt {
        Stmt::Ess { expr, .. } => faulty_symbol(alloc, earlier, expr, SymbolFault::Untyped),
        Stmt::Axiom { expr, .. } => faulty_symbol(alloc, earlier, expr, SymbolFault::Untyped),
        Stmt::Prove { expr, .. } => faulty_symbol(alloc, earlier, expr, SymbolFault::Untyped),
        _ => Ok(None),
    }
}

/// Returns the position, from 1, of the last `${` that no statement closes, or `None` exactly if
/// there is none.
///
/// Cost: the number of statements from that `${` to the end, or of all if there is none.
pub fn find_unclosed_block(statements: &[Stmt]) -> Option<usize>
    ensures { MatchOption result (list_any (λ p. is_open p.1) (active statements.now) ≡ false)
        (λ i. IsLastActiveAt statements.now i is_open) }
{
    let mut closed_later = 0usize;
    for i in (0..statements.len()).rev() {
        let stmt = &statements[i];
        if is_active_open(closed_later, stmt) {
            return Some(i + 1);
        }
        closed_later = closed_blocks_from(stmt, closed_later);
    }
    None
}

/// Returns whether the statement is a `${` whose block no later statement closes. Later statements
/// close `closed_later` of the blocks that are open just after it.
fn is_active_open(closed_later: usize, stmt: &Stmt) -> bool
    ensures { result ≡ (closed_later == 0 && is_open stmt.now) }
{
    closed_later == 0 && matches!(stmt, Stmt::Open)
}
