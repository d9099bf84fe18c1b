//! The state from which the rules are decided: the stacks of the active variables and of those with
//! an active `$f`, the number of active `$f`, `$e` and `$d`, and all three sizes at the start of
//! each open block.
ghost use Rattle.std.specs.Prelude.{◌≡◌, ◌++◌, ◌∷◌, [], length, not, nat_lt, take, None, IfOk};
ghost use Rattle.std.specs.Prelude.{IfSome, OnOk, IsTrue};
ghost use Rattle.scope.specs.Active.{active, is_closed, count, is_open, is_close};
ghost use Rattle.scope.specs.Kinds.{IsNumberingOf};
ghost use Rattle.scope.specs.Legal.{broken_rule, end_rule};
ghost use Rattle.scope.specs.Sorts.{sort_of_variable};
ghost use Rattle.scope.specs.FrameStatement.{frame_statements_of};
ghost use Rattle.scope.specs.Stored.SymbolNumbers.{AreRecorded};
ghost use Rattle.scope.specs.Stored.Stacks.{heights_of};
ghost use Rattle.scope.specs.Symbols.{symbols_of, symbols_after, symbols_in};

use crate::history::History;
use crate::legal::{RuleChecker, Sort};
use crate::numbering::Numbering;
use crate::rule::Rule;
use crate::stack::Stack;
use crate::stack_heights::StackHeights;
use crate::symbol_numbers::SymbolNumbers;
use entries::give_back;
use mm_read::Stmt;
use std::alloc::{AllocError, Global};
use std::marker::Model;

/// The state from which the rules are decided, after the statements accepted so far and at the
/// mark. Callers pass the numbering of the names, which frames use too. Contracts see the
/// statements.
///
/// `variables` has the numbers of the active variables, `typed` of those with an active `$f`.
/// `frame_statement_count` is how many `$f`, `$e` and `$d` are active; callers keep these. `blocks`
/// has the heights of the two stacks, and that count, at the start of each open block, `mark` those
/// at the mark.
#[derive(Drop)]
pub struct Rules {
    pub(crate) accepted: History,
    pub(crate) marked: History,
    pub(crate) variables: Stack,
    pub(crate) typed: Stack,
    pub(crate) frame_statement_count: usize,
    pub(crate) blocks: Vec<StackHeights>,
    pub(crate) mark: StackHeights,
}

impl Model for Rules {
    ghost use Rattle.scope.specs.Accepted.{Accepted};
    ghost use Rattle.scope.specs.Stored.Stacks.{IsRulesState};

    ghost Value = { Accepted };

    ghost view = { λ a. record { statements = a.accepted.statements; marked = a.marked.statements } };

    ghost invariant = { λ a. IsRulesState a.accepted.statements a.marked.statements a.variables a.typed a.frame_statement_count a.blocks.items a.mark };
}

impl Rules {
    /// Returns the state of no statements, with no marked statements.
    pub fn new(alloc: Global) -> Rules
        ensures statements { result.statements ≡ [] }
        ensures marked { result.marked ≡ [] }
    {
        Rules {
            accepted: History::new(),
            marked: History::new(),
            variables: Stack::new(alloc),
            typed: Stack::new(alloc),
            frame_statement_count: 0,
            blocks: Vec::new(alloc),
            mark: StackHeights {
                variables: 0,
                typed: 0,
                frame_statements: 0,
            },
        }
    }

    /// Marks the statements accepted so far: `back` goes back to them. Does not allocate.
    pub fn mark(&mut self)
        requires { IsTrue (is_closed self.old.statements) }
        ensures statements { self.new.statements ≡ self.old.statements }
        ensures marked { self.new.marked ≡ self.old.statements }
    {
        self.mark = self.heights();
        self.marked = History::same(&self.accepted);
    }

    /// Truncates to the marked statements. Does not allocate.
    pub fn back(&mut self)
        ensures statements { self.new.statements ≡ self.old.marked }
        ensures marked { self.new.marked ≡ self.old.marked }
        // The `$f`, `$e` and `$d` that are active at the mark are a prefix of those that were
        // active before the call.
        ensures frame_statements { take (length (frame_statements_of self.old.marked))
            (frame_statements_of self.old.statements) ≡ frame_statements_of self.old.marked }
    {
        self.variables.truncate(self.mark.variables);
        self.typed.truncate(self.mark.typed);
        self.frame_statement_count = self.mark.frame_statements;
        self.blocks.clear();
        self.accepted = History::same(&self.marked);
    }

    /// Frees unused memory, as `entries::give_back` does and at its cost.
    pub fn shrink(&mut self)
        ensures { self.new ≡ self.old }
    {
        self.variables.shrink();
        self.typed.shrink();
        give_back(&mut self.blocks);
    }

    /// Returns an equal state.
    ///
    /// Errors: an allocation fails. Cost: the size of the stacks.
    pub fn copy(&self, alloc: Global) -> Result<Rules, AllocError>
        ensures { IfOk result (λ rules. rules ≡ self.now) }
    {
        Ok(Rules {
            accepted: History::same(&self.accepted),
            marked: History::same(&self.marked),
            variables: self.variables.copy(alloc)?,
            typed: self.typed.copy(alloc)?,
            frame_statement_count: self.frame_statement_count,
            blocks: Vec::from_slice(alloc, self.blocks.as_slice())?,
            mark: self.mark,
        })
    }

    /// Returns whether no block is open.
    pub fn is_closed(&self) -> bool
        ensures closed { result ≡ is_closed self.now.statements }
        ensures open { nat_lt (count is_close self.now.statements) (count is_open self.now.statements) ≡ not result }
    {
        self.blocks.is_empty()
    }

    /// Returns `Ok` if the text may end here, that is, if no block is open.
    ///
    /// Errors: G10 if a block is open. Does not allocate.
    pub fn close_at_end(&self) -> Result<(), Rule>
        ensures ok { OnOk result (IsTrue (is_closed self.now.statements)) }
        ensures open { IfSome (end_rule self.now.statements) (λ rule. result ≡ Err rule) }
        ensures closed { end_rule self.now.statements ≡ None → result ≡ Ok tt }
    {
        if self.is_closed() {
            Ok(())
        } else {
            Err(Rule::G10)
        }
    }

    /// Returns the least rule that a statement would break as the next one, or `None`. `names` is
    /// the numbering of the statements so far.
    ///
    /// If the statement breaks none and recording has begun, the numbers of its symbols are
    /// recorded, or discarded if an allocation fails; for `$c` and `$v` they are discarded. The
    /// call allocates while it records, and temporarily if a list of names is long; the returned
    /// rule does not depend on whether an allocation succeeds.
    ///
    /// Cost: the statement's size; for a long list of names also that of sorting it or, if the
    /// allocation for that fails, the square of its length.
    /// Source: Metamath, chapter 4; the rules are defined in `specs/Legal.antt`.
    pub fn broken_rule<'a>(
        &'a self,
        names: &'a Numbering,
        alloc: Global,
        stmt: &Stmt,
        recorded: &mut SymbolNumbers,
    ) -> Option<Rule>
        requires numbering { IsNumberingOf self.now.statements names.now }
        requires empty { AreRecorded (symbols_of self.now.statements) [] recorded.old }
        ensures rule { result ≡ broken_rule self.now.statements stmt.now }
        ensures recorded { result ≡ None
            → AreRecorded (symbols_after self.now.statements stmt.now) (symbols_in stmt.now) recorded.new }
    {
        let checker = RuleChecker {
            rules: self,
            names,
            alloc,
        };
        checker.broken_rule(stmt, recorded)
    }

    /// Returns how many `$f`, `$e` and `$d` are active.
    pub(crate) fn frame_statement_count(&self) -> usize
        ensures { result ≡ length (frame_statements_of self.now.statements) }
    {
        self.frame_statement_count
    }

    /// Returns the sort of a symbol that was declared as a variable, by its number: whether it is
    /// active, and whether it has an active `$f`.
    #[inline(always)]
    pub(crate) fn sort_of_variable(&self, number: u32) -> Sort
        ensures { result ≡ sort_of_variable self.now.statements number }
    {
        if self.variables.index_of(number).is_none() {
            Sort::Other
        } else if self.typed.index_of(number).is_some() {
            Sort::Typed
        } else {
            Sort::Untyped
        }
    }

    /// Returns the heights of the stacks, and how many `$f`, `$e` and `$d` are active.
    pub(crate) fn heights(&self) -> StackHeights
        ensures { result ≡ heights_of (active self.now.statements) }
    {
        StackHeights {
            variables: self.variables.len(),
            typed: self.typed.len(),
            frame_statements: self.frame_statement_count,
        }
    }
}
