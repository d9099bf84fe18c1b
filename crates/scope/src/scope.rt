//! The statements accepted so far, and which of them are active.
ghost use Rattle.std.specs.Prelude.{◌≡◌, ◌+◌, ◌<◌, ◌^◌, ◌++◌, ◌∷◌, [], List, length, OnOk, OnErr};
ghost use Rattle.std.specs.Prelude.{IfOk, IfErr, IfSome, IsTrue, None};
ghost use Rattle.mm_read.specs.Statements.{IsShaped};
ghost use Rattle.scope.specs.Active.{bare, is_closed};
ghost use Rattle.scope.specs.Legal.{IsLegal, broken_rule, end_rule};
ghost use Rattle.scope.specs.Kinds.{Declared, IsNumberingOf};
ghost use Rattle.scope.specs.FrameStatement.{frame_statements_of};
ghost use Rattle.scope.specs.Stored.SymbolNumbers.{AreRecorded};
ghost use Rattle.scope.specs.declared.frame_statements.FrameStatement.{FrameStatement as FrameStatementView};
ghost use Rattle.scope.specs.Symbols.{symbols_after, symbols_in};

use crate::declare::declare_names;
use crate::frame_statements::{FrameStatement, copy_frame_statements, push_frame_statement};
use crate::legal::RuleChecker;
use crate::numbering::Numbering;
use crate::rule::Rule;
use crate::rules::Rules;
use crate::steps::Steps;
use crate::symbol_numbers::SymbolNumbers;
use mm_read::Stmt;
use std::alloc::{AllocError, Global};
use std::marker::Model;

/// The statements accepted so far, and those of them that are marked. Contracts see these
/// statements; a scope stores the state of the rules, the numbering of the names, and the active
/// `$f`, `$e` and `$d`.
#[derive(Drop)]
pub struct Scope {
    alloc: Global,
    pub(crate) rules: Rules,
    pub(crate) names: Numbering,
    pub(crate) frame_statements: Vec<FrameStatement>,
    /// The number of statements.
    pub(crate) count: usize,
    /// How many names the marked statements declare.
    marked_names: usize,
    /// The number of marked statements.
    marked_count: usize,
    /// The numbers of the symbols of the statement that `add` appends.
    recorded: SymbolNumbers,
}

impl Model for Scope {
    ghost use Rattle.scope.specs.Accepted.{Accepted};
    ghost use Rattle.scope.specs.Stored.Stacks.{IsScope};

    ghost Value = { Accepted };

    ghost view = { λ a. a.rules };

    ghost invariant = { λ a. IsScope a.rules.statements a.rules.marked a.names a.marked_names a.frame_statements.items a.count a.marked_count };
}

impl Scope {
    /// Returns a scope with no statements and no marked statements.
    pub fn new(alloc: Global) -> Scope
        ensures statements { result.statements ≡ [] }
        ensures marked { result.marked ≡ [] }
    {
        Scope {
            alloc,
            rules: Rules::new(alloc),
            names: Numbering::new(alloc),
            frame_statements: Vec::new(alloc),
            count: 0,
            marked_names: 0,
            marked_count: 0,
            recorded: SymbolNumbers::new(alloc),
        }
    }

    /// Appends the next statement if it breaks none of the rules G1 to G10.
    ///
    /// `steps` counts one step, whatever the outcome.
    ///
    /// Errors: the least rule that it breaks, or `Memory` if it breaks none and an allocation fails
    /// or there are `usize::MAX` statements already; the statements are then unchanged. Cost: that
    /// of `Rules::broken_rule`, and of declaring its names.
    /// Source: Metamath, chapter 4; the rules are defined in `specs/Legal.antt`.
    pub fn add(&mut self, stmt: &Stmt, steps: &mut Steps) -> Result<(), Rule>
        requires { IsShaped stmt.now }
        ensures added { OnOk result (self.new.statements ≡ self.old.statements ++ bare stmt.now ∷ []) }
        ensures legal { OnOk result (IsLegal self.old.statements stmt.now) }

        // A broken rule is returned even if every allocation fails.
        ensures broken { IfSome (broken_rule self.old.statements stmt.now) (λ rule. result ≡ Err rule) }
        ensures only_memory { IsLegal self.old.statements stmt.now → IfErr result (λ rule. rule ≡ Rule.Memory) }
        ensures same { OnErr result (self.new.statements ≡ self.old.statements) }
        ensures marked { self.new.marked ≡ self.old.marked }
        ensures counted { steps.new.count ≡ steps.old.count + 1 }
    {
        steps.tick();
        self.recorded.begin();
        let broken = self
            .rules
            .broken_rule(&self.names, self.alloc, stmt, &mut self.recorded);
        if let Some(rule) = broken {
            return Err(rule);
        }
        if self.count == usize::MAX {
            return Err(Rule::Memory);
        }
        let name_count = self.names.len();
        let active_count = self.frame_statements.len();
        let appended = append_legal(
            self.alloc,
            &mut self.rules,
            &mut self.names,
            &mut self.frame_statements,
            self.count + 1,
            stmt,
            &mut self.recorded,
        );
        if appended.is_err() {
            self.names.truncate(name_count);
            self.frame_statements.truncate(active_count);
            return Err(Rule::Memory);
        }
        self.count += 1;
        Ok(())
    }

    /// Returns the checker of the rules for the next statement.
    pub(crate) fn rule_checker(&self) -> RuleChecker<'_>
        ensures { result ≡ self.now }
    {
        RuleChecker {
            rules: &self.rules,
            names: &self.names,
            alloc: self.alloc,
        }
    }

    /// Returns the least rule that the statement would break as the next one, or `None`. Allocates
    /// temporarily if a list of names is long; the returned rule does not depend on whether that
    /// succeeds.
    ///
    /// Cost: that of `Rules::broken_rule`.
    /// Source: Metamath, chapter 4; the rules are defined in `specs/Legal.antt`.
    pub fn broken_rule(&self, stmt: &Stmt) -> Option<Rule>
        ensures { result ≡ broken_rule self.now.statements stmt.now }
    {
        let mut unrecorded = SymbolNumbers::new(self.alloc);
        self.rules
            .broken_rule(&self.names, self.alloc, stmt, &mut unrecorded)
    }

    /// Returns `Ok` if the text may end here, that is, if no block is open.
    ///
    /// Errors: G10 if a block is open. Does not allocate.
    pub fn close_at_end(&self) -> Result<(), Rule>
        ensures ok { OnOk result (IsTrue (is_closed self.now.statements)) }
        ensures open { IfSome (end_rule self.now.statements) (λ rule. result ≡ Err rule) }
        ensures closed { end_rule self.now.statements ≡ None → result ≡ Ok tt }
    {
        self.rules.close_at_end()
    }

    /// Marks the statements accepted so far: `back` goes back to them. Does not allocate.
    pub fn mark(&mut self)
        requires { IsTrue (is_closed self.old.statements) }
        ensures statements { self.new.statements ≡ self.old.statements }
        ensures marked { self.new.marked ≡ self.old.statements }
    {
        self.rules.mark();
        self.marked_names = self.names.len();
        self.marked_count = self.count;
    }

    /// Truncates to the marked statements. Does not allocate.
    ///
    /// Cost: at most what the statements after the marked ones appended.
    pub fn back(&mut self)
        ensures statements { self.new.statements ≡ self.old.marked }
        ensures marked { self.new.marked ≡ self.old.marked }
    {
        self.rules.back();
        self.names.truncate(self.marked_names);
        self.frame_statements
            .truncate(self.rules.frame_statement_count());
        self.count = self.marked_count;
    }

    /// Returns an equal scope.
    ///
    /// Errors: an allocation fails. Cost: the size of the scope.
    pub fn copy(&self) -> Result<Scope, AllocError>
        ensures { IfOk result (λ scope. scope ≡ self.now) }
    {
        Ok(Scope {
            alloc: self.alloc,
            rules: self.rules.copy(self.alloc)?,
            names: self.names.copy(self.alloc)?,
            frame_statements: copy_frame_statements(self.alloc, self.frame_statements.as_slice())?,
            count: self.count,
            marked_names: self.marked_names,
            marked_count: self.marked_count,
            recorded: SymbolNumbers::new(self.alloc),
        })
    }
}

/// Appends a legal statement; the recorded numbers are those of its symbols.
///
/// Errors: an allocation fails; the rules are then unchanged, and `names` and `frame_statements`
/// may have items appended.
fn append_legal(
    alloc: Global,
    rules: &mut Rules,
    names: &mut Numbering,
    frame_statements: &mut Vec<FrameStatement>,
    at: usize,
    stmt: &Stmt,
    recorded: &mut SymbolNumbers,
) -> Result<(), AllocError>
    requires legal { IsLegal rules.old.statements stmt.now }
    requires numbering { IsNumberingOf rules.old.statements names.old }
    requires frame_statements { frame_statements.old.items ≡ frame_statements_of rules.old.statements }
    requires at { at ≡ length rules.old.statements + 1 }
    requires recorded { AreRecorded (symbols_after rules.old.statements stmt.now) (symbols_in stmt.now) recorded.old }
    ensures added { OnOk result (rules.new.statements ≡ rules.old.statements ++ bare stmt.now ∷ []) }
    ensures same { OnErr result (rules.new.statements ≡ rules.old.statements) }
    ensures marked { rules.new.marked ≡ rules.old.marked }
    ensures numbering { OnOk result (IsNumberingOf (rules.old.statements ++ bare stmt.now ∷ []) names.new) }
    ensures names { (more : Declared) × (names.new ≡ names.old ++ more) }
    ensures frame_statements { OnOk result
        (frame_statements.new.items ≡ frame_statements_of (rules.old.statements ++ bare stmt.now ∷ [])) }
    ensures grows { OnErr result
        ((more : List FrameStatementView) × (frame_statements.new.items ≡ frame_statements.old.items ++ more)) }
{
    push_frame_statement(frame_statements, alloc, at, stmt)?;
    declare_names(names, alloc, stmt, recorded)?;
    match recorded.numbers() {
        Some(numbers) => rules.accept(stmt, numbers)?,
        None => return Err(AllocError),
    }
    // After a `$}` those of its block are no longer active.
    frame_statements.truncate(rules.frame_statement_count());
    Ok(())
}
