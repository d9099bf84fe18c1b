//! The mandatory pairs of an assertion, one variable at a time.
ghost use Rattle.std.specs.Prelude.{◌≡◌, ◌<◌, [], length, take, OnOk};
ghost use Rattle.frame.specs.Below.{AreBelow};
ghost use Rattle.frame.specs.MandatoryPairs.{float_variables, has_number, with_number, IsEachOnce};
ghost use Rattle.frame.specs.MandatoryPairs.{IsPairList};
ghost use Rattle.frame.specs.Stored.PairLists.{AddsBefore};

use crate::pairs::Pairs;
use entries::{Hypotheses, Hypothesis};
use scope::Stack;
use std::alloc::{AllocError, Global};
use std::marker::Model;

/// A buffer for the mandatory pairs of one assertion after another, of which it has one list at a
/// time: a variable, and those before it that are in an active `$d` with it.
///
/// Contracts see the variables of the mandatory `$f`, and the list.
#[derive(Drop)]
pub struct PairBuffer {
    /// The variables of the mandatory `$f`, in order.
    variables: Stack,
    /// One of them, and those before it.
    list: Stack,
}

impl Model for PairBuffer {
    ghost use Rattle.frame.specs.Parts.{VariablePairs};
    ghost use Rattle.frame.specs.MandatoryPairs.{IsEachOnce};

    ghost Value = { VariablePairs };

    ghost view = { λ a. record { variables = a.variables; list = a.list } };

    ghost invariant = { λ a. IsEachOnce a.variables };
}

impl PairBuffer {
    /// Returns a buffer without variables. Does not allocate.
    pub fn new(alloc: Global) -> PairBuffer
        ensures { result.variables ≡ [] }
    {
        PairBuffer {
            variables: Stack::new(alloc),
            list: Stack::new(alloc),
        }
    }

    /// Begins an assertion with these mandatory hypotheses: records the variables of its `$f`.
    ///
    /// Errors: an allocation fails. Cost: the number of its hypotheses.
    pub fn begin(&mut self, hypotheses: &Hypotheses<'_>) -> Result<(), AllocError>
        ensures { OnOk result (self.new.variables ≡ float_variables hypotheses.now) }
    {
        record_variables(hypotheses, &mut self.variables)
    }

    /// Returns how many variables the assertion has.
    pub fn len(&self) -> usize
        ensures { result ≡ length self.now.variables }
    {
        self.variables.len()
    }

    /// Makes the list of the variable at an index, from 0, by the `$d` of the assertion.
    ///
    /// Errors: an allocation fails. Cost: the row of the variable, which is the sum of the lengths
    /// of the active `$d` that have it.
    pub fn fill(&mut self, pairs: &Pairs<'_>, index: usize) -> Result<(), AllocError>
        requires index { index < length self.old.variables }
        requires below { AreBelow (length pairs.now.names) self.old.variables }
        ensures variables { self.new.variables ≡ self.old.variables }
        ensures list { OnOk result (IsPairList pairs.now self.old.variables index self.new.list) }
    {
        let variable = self.variables.as_slice()[index];
        self.list.truncate(0);
        self.list.push(variable)?;
        let mut disjoints = pairs.disjoints_with(variable);
        while let Some(symbols) = disjoints.next() {
            add_before(&self.variables, index, symbols, &mut self.list)?;
        }
        Ok(())
    }

    /// Returns the list that was made last.
    pub fn list(&self) -> &[u32]
        ensures { result.now ≡ self.now.list }
    {
        self.list.as_slice()
    }
}

/// Makes a stack that of the variables of the `$f`, each once.
///
/// Errors: an allocation fails.
pub fn record_variables(hypotheses: &Hypotheses<'_>, found: &mut Stack) -> Result<(), AllocError>
    ensures variables { OnOk result (found.new ≡ float_variables hypotheses.now) }
    ensures once { IsEachOnce found.new }
{
    found.truncate(0);
    for i in 0..hypotheses.len() {
        if let Hypothesis::Float(variable) = hypotheses.get(i) {
            add_number(found, variable)?;
        }
    }
    Ok(())
}

/// Pushes a number, if it is not on the stack.
fn add_number(found: &mut Stack, number: u32) -> Result<(), AllocError>
    ensures added { OnOk result (found.new ≡ with_number found.old number) }
    ensures once { IsEachOnce found.old → IsEachOnce found.new }
{
    if found.index_of(number).is_some() {
        return Ok(());
    }
    found.push(number)
}

/// Pushes those of the symbols that are variables before an index, each once.
///
/// Errors: an allocation fails. Cost: the symbols.
fn add_before(
    variables: &Stack,
    index: usize,
    symbols: &[u32],
    list: &mut Stack,
) -> Result<(), AllocError>
    requires once { IsEachOnce variables.now }
    ensures { OnOk result (AddsBefore (take index variables.now) symbols.now list.old list.new) }
{
    for symbol in symbols {
        if is_before(variables, index, *symbol) {
            add_number(list, *symbol)?;
        }
    }
    Ok(())
}

/// Returns whether a symbol is one of the variables before an index.
fn is_before(variables: &Stack, index: usize, symbol: u32) -> bool
    requires { IsEachOnce variables.now }
    ensures { result ≡ has_number (take index variables.now) symbol }
{
    match variables.index_of(symbol) {
        Some(place) => place < index,
        None => false,
    }
}
