//! Updates the state of the rules by a legal statement.
ghost use Rattle.std.specs.Prelude.{◌≡◌, ◌+◌, ◌<◌, ◌≤◌, ◌^◌, ◌++◌, ◌∷◌, [], ℕ, List, length};
ghost use Rattle.std.specs.Prelude.{get_or, true, OnOk, OnErr};
ghost use Rattle.mm_read.specs.declared.stmt.Stmt.TheVariants as shape;
ghost use Rattle.scope.specs.Active.{bare};
ghost use Rattle.scope.specs.Legal.{IsLegal};
ghost use Rattle.scope.specs.Stored.Stacks.{IsPlain, can_push};
ghost use Rattle.scope.specs.Symbols.{AreVariableNumbers, symbols_after};

use crate::history::History;
use crate::rules::Rules;
use crate::stack::Stack;
use mm_read::Stmt;
use std::alloc::AllocError;

impl Rules {
    /// Appends a legal statement. `numbers` are those of the variables that a `$v` declares, or of
    /// the two symbols of a `$f`; for other statements they are ignored.
    ///
    /// Errors: an allocation fails; the statements are then unchanged. Cost: the statement's own
    /// size.
    pub fn accept(&mut self, stmt: &Stmt, numbers: &[u32]) -> Result<(), AllocError>
        requires legal { IsLegal self.old.statements stmt.now }
        requires room { length self.old.statements + 1 < 2 ^ 64 }
        requires numbers { AreVariableNumbers (symbols_after self.old.statements stmt.now) stmt.now numbers.now }
        ensures ok { OnOk result (self.new.statements ≡ self.old.statements ++ bare stmt.now ∷ []) }
        ensures err { OnErr result (self.new.statements ≡ self.old.statements) }
        ensures marked { self.new.marked ≡ self.old.marked }
    {
        match stmt {
            Stmt::Open => self.accept_open(stmt),
            Stmt::Close => {
                self.accept_close(stmt);
                Ok(())
            }
            Stmt::Var(_) => self.accept_variables(stmt, numbers),
            Stmt::Float { .. } => self.accept_float(stmt, numbers),
            Stmt::Ess { .. } => self.accept_plain(stmt, 1),
            Stmt::Disj(_) => self.accept_plain(stmt, 1),
            Stmt::Const(_) => self.accept_plain(stmt, 0),
            Stmt::Axiom { .. } => self.accept_plain(stmt, 0),
            Stmt::Prove { .. } => self.accept_plain(stmt, 0),
        }
    }

    fn accept_open(&mut self, stmt: &Stmt) -> Result<(), AllocError>
        requires open { stmt.now ≡ shape.Open }
        ensures ok { OnOk result (self.new.statements ≡ self.old.statements ++ bare stmt.now ∷ []) }
        ensures err { OnErr result (self.new.statements ≡ self.old.statements) }
        ensures marked { self.new.marked ≡ self.old.marked }
    {
        let heights = self.heights();
        self.blocks.push(heights)?;
        self.accepted = History::after(&self.accepted, stmt);
        Ok(())
    }

    fn accept_close(&mut self, stmt: &Stmt)
        requires close { stmt.now ≡ shape.Close }
        requires legal { IsLegal self.old.statements stmt.now }
        ensures ok { self.new.statements ≡ self.old.statements ++ bare stmt.now ∷ [] }
        ensures marked { self.new.marked ≡ self.old.marked }
    {
        match self.blocks.pop() {
            Some(heights) => {
                self.variables.truncate(heights.variables);
                self.typed.truncate(heights.typed);
                self.frame_statement_count = heights.frame_statements;
                self.accepted = History::after(&self.accepted, stmt);
            }
            None => unreachable!(),
        }
    }

    fn accept_variables(&mut self, stmt: &Stmt, numbers: &[u32]) -> Result<(), AllocError>
        requires variables { (symbols : List (List ℕ)) × (stmt.now ≡ shape.Var symbols) }
        requires legal { IsLegal self.old.statements stmt.now }
        requires numbers { AreVariableNumbers (symbols_after self.old.statements stmt.now) stmt.now numbers.now }
        ensures ok { OnOk result (self.new.statements ≡ self.old.statements ++ bare stmt.now ∷ []) }
        ensures err { OnErr result (self.new.statements ≡ self.old.statements) }
        ensures marked { self.new.marked ≡ self.old.marked }
    {
        push_all(&mut self.variables, numbers)?;
        self.accepted = History::after(&self.accepted, stmt);
        Ok(())
    }

    fn accept_float(&mut self, stmt: &Stmt, numbers: &[u32]) -> Result<(), AllocError>
        requires float { (label constant variable : List ℕ) × (stmt.now ≡ shape.Float label constant variable) }
        requires legal { IsLegal self.old.statements stmt.now }
        requires room { length self.old.statements + 1 < 2 ^ 64 }
        requires numbers { AreVariableNumbers (symbols_after self.old.statements stmt.now) stmt.now numbers.now }
        ensures ok { OnOk result (self.new.statements ≡ self.old.statements ++ bare stmt.now ∷ []) }
        ensures err { OnErr result (self.new.statements ≡ self.old.statements) }
        ensures marked { self.new.marked ≡ self.old.marked }
    {
        let number = second(numbers);
        self.typed.push(number)?;
        self.frame_statement_count += 1;
        self.accepted = History::after(&self.accepted, stmt);
        Ok(())
    }

    /// Appends a statement that neither opens nor closes a block, and neither declares a variable
    /// nor gives one a typecode. `added` is how many frame statements it is: 1 for a `$e` or `$d`,
    /// else 0.
    fn accept_plain(&mut self, stmt: &Stmt, added: usize) -> Result<(), AllocError>
        requires plain { IsPlain stmt.now added }
        requires one { added ≤ 1 }
        requires room { length self.old.statements + 1 < 2 ^ 64 }
        ensures ok { OnOk result (self.new.statements ≡ self.old.statements ++ bare stmt.now ∷ []) }
        ensures err { OnErr result (self.new.statements ≡ self.old.statements) }
        ensures marked { self.new.marked ≡ self.old.marked }
    {
        self.frame_statement_count += added;
        self.accepted = History::after(&self.accepted, stmt);
        Ok(())
    }
}

/// Returns the second of at least two numbers.
fn second(numbers: &[u32]) -> u32
    requires { 1 < length numbers.now }
    ensures { result ≡ get_or numbers.now 1 0 }
{
    numbers[1]
}

/// Appends the numbers to the stack, or none of them if an allocation fails.
fn push_all(stack: &mut Stack, numbers: &[u32]) -> Result<(), AllocError>
    requires { can_push stack.old numbers.now ≡ true }
    ensures ok { OnOk result (stack.new ≡ stack.old ++ numbers.now) }
    ensures err { OnErr result (stack.new ≡ stack.old) }
{
    let len = stack.len();
    let done = push_each(stack, numbers);
    if done.is_err() {
        stack.truncate(len);
    }
    done
}

fn push_each(stack: &mut Stack, numbers: &[u32]) -> Result<(), AllocError>
    requires { can_push stack.old numbers.now ≡ true }
    ensures ok { OnOk result (stack.new ≡ stack.old ++ numbers.now) }
    ensures more { (more : List ℕ) × (stack.new ≡ stack.old ++ more) }
{
    for number in numbers.iter() {
        stack.push(*number)?;
    }
    Ok(())
}
