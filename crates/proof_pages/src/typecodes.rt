//! The CSS classes of a database: one for each typecode. The style sheet gives each class its
//! colour.
ghost use Rattle.std.specs.Prelude.{◌≡◌, get_or, IfOk, OnOk};
ghost use Rattle.proof_pages.specs.Colours.{class_of, classes_of, float_numbers, is_float_at};
ghost use Rattle.proof_pages.specs.Colours.{pair_if, padded, with_class, with_float};
ghost use Rattle.proof_pages.specs.Colours.{with_typecode};

use crate::partition::expr_at;
use frame::Frames;
use mm_read::Stmt;
use std::alloc::{AllocError, Global};
use std::marker::Model;

/// The CSS class of the variables of each typecode of a database. The classes are numbered from 1,
/// in the order in which the typecodes first appear in a `$f`, so that a colour means the same on
/// every page. Contracts see `Classes`.
#[derive(Drop)]
pub struct Typecodes {
    /// The class of each typecode, indexed by symbol number; 0 for a symbol that has none.
    classes: Vec<u32>,
    /// The number of classes.
    count: u32,
}

impl Model for Typecodes {
    ghost use Rattle.proof_pages.specs.Colours.{Classes, classes_view};

    ghost Value = { Classes };

    ghost view = { λ a. classes_view a.classes.items a.count };
}

impl Typecodes {
    /// Returns the classes of a database.
    ///
    /// Errors: an allocation fails. Cost: the number of statements, and a table up to the greatest
    /// symbol number.
    pub fn of(alloc: Global, statements: &[Stmt], frames: &Frames) -> Result<Typecodes, AllocError>
        ensures { IfOk result (λ typecodes. typecodes
            ≡ classes_of frames.now.names statements.now frames.now.statements) }
    {
        let mut typecodes = Typecodes {
            classes: Vec::new(alloc),
            count: 0,
        };
        for index in 0..statements.len() {
            typecodes.add_float(float_at(statements, frames, index + 1))?;
        }
        Ok(typecodes)
    }

    /// Gives the typecode of a `$f` the next class, unless it has one.
    fn add_float(&mut self, float: Option<(u32, u32)>) -> Result<(), AllocError>
        ensures { OnOk result (self.new ≡ with_float self.old float) }
    {
        match float {
            Some((typecode, _)) => self.add(typecode),
            None => Ok(()),
        }
    }

    /// Gives a typecode the next class, unless it has one.
    fn add(&mut self, typecode: u32) -> Result<(), AllocError>
        ensures { OnOk result (self.new ≡ with_typecode self.old typecode) }
    {
        if self.class_of(typecode) == 0 {
            let css_class = self.count.checked_add(1).ok_or(AllocError)?;
            set_class(&mut self.classes, typecode, css_class)?;
            self.count = css_class;
        }
        Ok(())
    }

    /// Returns the class of the variables of a typecode, or 0 if it has none.
    pub(crate) fn class_of(&self, typecode: u32) -> u32
        ensures { result ≡ class_of self.now typecode }
    {
        class_in(&self.classes, typecode)
    }
}

/// Returns the numbers of the typecode and of the variable of the statement at a position, if it is
/// a `$f`.
pub(crate) fn float_at(statements: &[Stmt], frames: &Frames, position: usize) -> Option<(u32, u32)>
    ensures { result
        ≡ float_numbers frames.now.names statements.now frames.now.statements position }
{
    pair_if(is_float_at(statements, position), expr_at(frames, position))
}

/// Returns the two symbols of the expression of a `$f`.
fn pair_if(is_float: bool, expr: &[u32]) -> Option<(u32, u32)>
    ensures { result ≡ pair_if is_float expr.now }
{
    if is_float && expr.len() == 2 {
        Some((expr[0], expr[1]))
    } else {
        None
    }
}

/// Returns whether there is a `$f` at a position.
fn is_float_at(statements: &[Stmt], position: usize) -> bool
    ensures { result ≡ is_float_at statements.now position }
{
    if position == 0 || position > statements.len() {
        return false;
    }
    match &statements[position - 1] {
        Stmt::Float { .. } => true,
        _ => false,
    }
}

/// Returns the class of a symbol in a table that is indexed by symbol number, 0 if it has none.
pub(crate) fn class_in(table: &[u32], symbol: u32) -> u32
    ensures { result ≡ get_or table.now symbol 0 }
{
    match table.get(symbol as usize) {
        Some(css_class) => *css_class,
        None => 0,
    }
}

/// Gives a symbol a class in a table that is indexed by symbol number.
#[tactic(auto, using(crate::proofs::ColourLemmas::in_padded))]
pub(crate) fn set_class(table: &mut Vec<u32>, symbol: u32, css_class: u32) -> Result<(), AllocError>
    ensures { OnOk result (table.new.items ≡ with_class table.old.items symbol css_class) }
{
    let index = symbol as usize;
    pad(table, index + 1)?;
    table[index] = css_class;
    Ok(())
}

/// Appends zeros up to a length.
#[tactic(auto, using(crate::proofs::ColourLemmas::padded_more, crate::proofs::ColourLemmas::padded_same))]
fn pad(table: &mut Vec<u32>, len: usize) -> Result<(), AllocError>
    ensures { OnOk result (table.new.items ≡ padded table.old.items len) }
{
    if table.len() < len {
        table.resize(len, 0)?;
    }
    Ok(())
}
