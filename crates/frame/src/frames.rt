//! The statements of a database by position.
ghost use Rattle.std.specs.Prelude.{◌≡◌, ◌≤◌, ◌<◌, [], true, IfOk, length, Some, option_map, OnOk};
ghost use Rattle.mm_read.specs.declared.stmt.Stmt.{Stmt as Statement};
ghost use Rattle.names.specs.Codes.{name_at, decode};
ghost use Rattle.scope.specs.Active.{before, stmt_at, label_of, expr_of};
ghost use Rattle.frame.specs.AtPosition.{IsPosition, ArePositions, HasLegalProperties, IsMeaning};
ghost use Rattle.frame.specs.FrameOf.{HasAssertion, hypotheses};
ghost use Rattle.frame.specs.Sizes.{assertion_size};
ghost use Rattle.frame.specs.AssertionView.{AreBuffersOf, AreGroupsOf, IsViewOf};
ghost use Rattle.frame.specs.Below.{AreBelow};

use crate::assertion_parts::encode_hypotheses;
use crate::at_position::is_active_at;
use crate::disjoint_groups::{DisjointGroups, find_groups};
use crate::frame_buffers::FrameBuffers;
use crate::mandatory::find_hypotheses;
use crate::meaning::Meaning;
use crate::pair_buffer::record_variables;
use crate::pairs::Pairs;
use crate::shape::has_label;
use crate::storage::Storage;
use crate::symbol_numbers::label_number;
use entries::{AssertionView, Entries, Groups, Hypotheses, Kind, LastActive, Mentions};
use mm_lex::Words;
use scope::{Numbering, Stack, SymbolNumbers};
use std::alloc::{AllocError, Global};
use std::marker::Model;

/// The statements of a database by position, counted from 1, without their proofs, with their
/// symbols as numbers.
///
/// Contracts see the list of the statements, each legal after the earlier ones, and the names of
/// the numbers, in order of first declaration.
#[derive(Drop)]
pub struct Frames {
    pub(crate) alloc: Global,
    /// The statements.
    pub(crate) storage: Storage,
    /// Buffers for the parts of the next assertion.
    pub(crate) buffers: FrameBuffers,
    /// A buffer for the numbers of the symbols of the next statement.
    pub(crate) recorded: SymbolNumbers,
}

impl Model for Frames {
    ghost use Rattle.frame.specs.Parts.{Numbered};
    ghost use Rattle.frame.specs.Stored.EntryMeanings.{numbered};
    ghost use Rattle.frame.specs.Stored.Whole.{AreStored};

    ghost Value = { Numbered };

    ghost view = { λ a. numbered a.storage };

    ghost invariant = { λ a. AreStored a.storage };
}

impl Frames {
    /// Returns an empty database. Does not allocate.
    pub fn new(alloc: Global) -> Frames
        ensures statements { result.statements ≡ [] }
        ensures names { result.names ≡ [] }
    {
        Frames {
            alloc,
            storage: Storage {
                numbering: Numbering::new(alloc),
                positions: Vec::new(alloc),
                ends: Vec::new(alloc),
                entries: Entries::new(alloc),
                floats: Mentions::new(alloc),
                disjoints: Mentions::new(alloc),
                variables: Mentions::new(alloc),
                last_active: LastActive {
                    block: 0,
                    essential: 0,
                    variable: 0,
                    disjoint: 0,
                },
            },
            buffers: FrameBuffers::new(alloc),
            recorded: SymbolNumbers::new(alloc),
        }
    }

    /// Returns the number of statements.
    pub fn len(&self) -> usize
        ensures { result ≡ length self.now.statements }
    {
        self.storage.entries.len()
    }

    /// Reserves room for `labels` more labels if allocation succeeds, so that statements with
    /// labels are added faster.
    pub fn reserve(&mut self, labels: usize)
        ensures { self.new ≡ self.old }
    {
        self.storage.numbering.reserve(self.alloc, labels);
        let _ = self.storage.positions.reserve(labels);
    }

    /// Returns the position of the statement with this label, or `None` if there is none.
    ///
    /// Cost: a look-up of the label.
    #[inline(always)]
    pub fn position(&self, label: &[u8]) -> Option<usize>
        ensures { IsPosition self.now.statements label.now result }
    {
        let number = label_number(&self.storage.numbering, label)?;
        Some(self.storage.positions[number as usize] as usize)
    }

    /// Returns, for each label, the position of the statement with it, or `None` if there is none.
    ///
    /// Errors: an allocation fails. Cost: that of looking each label up.
    pub fn positions(&self, labels: &Words) -> Result<Vec<Option<usize>>, AllocError>
        ensures found { IfOk result (λ positions. ArePositions self.now.statements labels.now positions.items) }
        ensures legal { HasLegalProperties self.now.statements self.now.names }
    {
        let mut positions = Vec::new(self.alloc);
        for label in labels.iter() {
            positions.push(self.position(label))?;
        }
        Ok(positions)
    }

    /// Returns the expression of the statement at a position, by numbers, or an empty slice if it
    /// has none.
    ///
    /// Cost: a constant.
    pub fn expr(&self, at: usize) -> &[u32]
        requires { (1 ≤ at) × (at ≤ length self.now.statements) }
        ensures same { (s : Statement) → stmt_at self.now.statements at ≡ Some s
            → decode self.now.names result.now ≡ expr_of s }
        ensures codes { AreBelow (length self.now.names) result.now }
    {
        let entry = self.storage.entries.entry(at - 1);
        if has_label(entry.kind) {
            entry.symbols
        } else {
            &[]
        }
    }

    /// Returns what a citation of the statement at `i` means at `at`.
    ///
    /// Cost: a constant.
    #[inline(always)]
    pub fn meaning(&self, at: usize, i: usize) -> Meaning<'_>
        requires { (1 ≤ at) × (at ≤ length self.now.statements) }
        ensures { IsMeaning self.now.statements self.now.names at i result }
    {
        if i == 0 || i >= at {
            return Meaning::Nothing;
        }
        match self.storage.entries.entry(i - 1).kind {
            Kind::Float | Kind::Ess => {
                if is_active_at(&self.storage, i, at) {
                    Meaning::Hypothesis(self.expr(i))
                } else {
                    Meaning::Nothing
                }
            }
            Kind::Axiom | Kind::Prove => Meaning::Assertion,
            _ => Meaning::Nothing,
        }
    }

    /// Returns the pairs of disjoint variables at a position.
    ///
    /// Cost: a constant.
    pub fn active_pairs(&self, at: usize) -> Pairs<'_>
        requires { (1 ≤ at) × (at ≤ length self.now.statements) }
        ensures statements { result.statements ≡ before self.now.statements at }
        ensures names { result.names ≡ self.now.names }
        ensures legal { HasLegalProperties self.now.statements self.now.names }
    {
        Pairs {
            storage: &self.storage,
            at,
        }
    }

    /// Returns the size of the assertion at a position, which was counted when it was appended: its
    /// mandatory hypotheses, the lengths of its conclusion and of its `$e`, and the rows of its
    /// mandatory variables.
    ///
    /// Cost: a constant.
    #[inline(always)]
    pub fn size(&self, a: usize) -> u64
        requires { (s : Statement) × HasAssertion self.now.statements a s }
        ensures { (s : Statement) → stmt_at self.now.statements a ≡ Some s
            → result ≡ assertion_size (before self.now.statements a) s }
    {
        self.storage.entries.entry(a - 1).size
    }

    /// Returns the parts of the assertion at a position, by numbers. Those that are not kept with
    /// it are made in the buffers, but its pairs are not: `PairBuffer` makes them one by one.
    ///
    /// Errors: an allocation fails. Cost: a constant; for parts that are not kept, the mandatory
    /// hypotheses, which are sorted.
    #[inline(always)]
    pub fn cited_view<'a>(
        &'a self,
        a: usize,
        buffers: &'a mut FrameBuffers,
    ) -> Result<AssertionView<'a>, AllocError>
        requires { (s : Statement) × HasAssertion self.now.statements a s }
        ensures { IfOk result
            (λ view. (s : Statement) → stmt_at self.now.statements a ≡ Some s
            → IsViewOf self.now.statements self.now.names a s view) }
    {
        if let Some(view) = self.storage.entries.whole_view(a - 1) {
            return Ok(view);
        }
        self.fill_buffers(a, buffers)?;
        Ok(self.buffered_view(a, buffers))
    }

    /// Fills the buffers with the mandatory hypotheses of the assertion at a position.
    fn fill_buffers(&self, a: usize, buffers: &mut FrameBuffers) -> Result<(), AllocError>
        requires { (s : Statement) × HasAssertion self.now.statements a s }
        ensures { OnOk result (AreBuffersOf self.now.statements self.now.names a buffers.new) }
    {
        buffers.clear();
        self.mandatory(a, &mut buffers.hypotheses)?;
        encode_hypotheses(
            &self.storage,
            &buffers.hypotheses,
            &mut buffers.numbered_hypotheses,
            &mut buffers.typecodes,
        )
    }

    /// Returns the parts of the assertion at a position, from the buffers that `fill_buffers`
    /// filled for it.
    fn buffered_view<'a>(&'a self, a: usize, buffers: &'a FrameBuffers) -> AssertionView<'a>
        requires assertion { (s : Statement) × HasAssertion self.now.statements a s }
        requires buffers { AreBuffersOf self.now.statements self.now.names a buffers.now }
        ensures { (s : Statement) → stmt_at self.now.statements a ≡ Some s
            → IsViewOf self.now.statements self.now.names a s result }
    {
        AssertionView {
            typecodes: &buffers.typecodes,
            hypotheses: Hypotheses::new(&buffers.numbered_hypotheses),
            conclusion: self.expr(a),
            pairs_listed: false,
            pairs: Groups::new(&[], &[]),
        }
    }

    /// Returns the groups of the assertion at a position: for each active `$d` its mandatory
    /// variables, if they are two or more.
    ///
    /// Errors: an allocation fails. Cost: the mandatory hypotheses, which are sorted, and the
    /// symbols of the active `$d`.
    pub fn groups(&self, a: usize) -> Result<DisjointGroups, AllocError>
        requires { (s : Statement) × HasAssertion self.now.statements a s }
        ensures { IfOk result
            (λ groups. (s : Statement) → stmt_at self.now.statements a ≡ Some s
            → AreGroupsOf self.now.statements self.now.names a s groups) }
    {
        let mut positions = Vec::new(self.alloc);
        self.mandatory(a, &mut positions)?;
        let mut numbers = Vec::new(self.alloc);
        let mut typecodes = Vec::new(self.alloc);
        encode_hypotheses(&self.storage, &positions, &mut numbers, &mut typecodes)?;
        let mut variables = Stack::new(self.alloc);
        record_variables(&Hypotheses::new(&numbers), &mut variables)?;
        find_groups(self.alloc, &self.storage, a, &variables)
    }

    /// Appends the positions of the mandatory hypotheses of the assertion at a position, in order,
    /// to an empty list.
    ///
    /// Errors: an allocation fails. Cost: their number, if they are kept with the assertion; else
    /// the symbols of the assertion and of the active `$e`, and a sort.
    pub fn mandatory(&self, a: usize, list: &mut Vec<u32>) -> Result<(), AllocError>
        requires assertion { (s : Statement) × HasAssertion self.now.statements a s }
        requires empty { list.old.items ≡ [] }
        ensures listed { (s : Statement) → stmt_at self.now.statements a ≡ Some s
            → OnOk result (list.new.items ≡ hypotheses (before self.now.statements a) s) }
        ensures legal { HasLegalProperties self.now.statements self.now.names }
    {
        if !self.storage.entries.is_whole(a - 1) {
            return find_hypotheses(&self.storage, a, self.expr(a), list);
        }
        list.extend_from_slice(self.storage.entries.hypotheses(a - 1))?;
        Ok(())
    }

    /// Returns the label of the statement at a position, or `None` if it has none.
    ///
    /// Cost: a constant.
    pub fn label(&self, at: usize) -> Option<&[u8]>
        requires { (1 ≤ at) × (at ≤ length self.now.statements) }
        ensures { (s : Statement) → stmt_at self.now.statements at ≡ Some s
            → option_map (λ r. r.now) result ≡ label_of s }
    {
        let entry = self.storage.entries.entry(at - 1);
        if has_label(entry.kind) {
            Some(self.storage.numbering.label(entry.before.label_count))
        } else {
            None
        }
    }

    /// Returns the symbol with a number, or an empty slice if there is none.
    ///
    /// Cost: a constant.
    pub fn symbol(&self, number: u32) -> &[u8]
        ensures { result.now ≡ name_at self.now.names number }
    {
        if (number as usize) < self.storage.numbering.symbol_count() {
            self.storage.numbering.symbol(number)
        } else {
            &[]
        }
    }
}
