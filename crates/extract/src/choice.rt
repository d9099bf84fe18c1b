//! Chooses the statements of an extract.
use crate::cited::{cited_marks, is_marked, mark};
use crate::disjoint_lists::DisjointLists;
use library::Library;
use mm_lex::Words;
use mm_read::Stmt;
use names::NameTable;
use std::alloc::{AllocError, Global};

/// A block that is open.
#[derive(Clone, Copy)]
struct Block {
    /// The position of its `${`.
    open: usize,
    /// The number of `$f`, `$e` and `$d` that are active before it.
    active_count: usize,
    /// Whether the extract includes an assertion of the block.
    used: bool,
}

/// The statements that concern a symbol: positions, 0 for none.
#[derive(Drop)]
struct SymbolRecord {
    /// Its last declaration.
    declared: usize,
    /// Its active `$f`.
    float: usize,
    /// An active `$e` that is included and contains it.
    covered_by: usize,
    /// The last assertion for which it was recorded in `other_variables`.
    variable_of: usize,
}

/// The state of a walk from the first statement to the last. The extract includes the statements
/// that are marked.
#[derive(Drop)]
struct Choice<'a> {
    alloc: Global,
    library: &'a Library,
    marks: Vec<bool>,
    /// The symbols declared so far.
    symbols: NameTable,
    /// The record of each symbol.
    records: Vec<SymbolRecord>,
    /// The positions of the active `$f`, `$e` and `$d`.
    active: Vec<usize>,
    /// The number of these that are before the last included assertion.
    active_before_last: usize,
    /// The variables of the visited assertion, in its expression or its proof, that no active,
    /// included `$e` contained when they were recorded.
    other_variables: Vec<usize>,
    /// The active `$d`.
    disjoint: DisjointLists,
    /// The positions of `$d` to include.
    to_include: Vec<usize>,
    blocks: Vec<Block>,
}

/// Returns for each statement whether the extract includes it: the assertions of the labels, what
/// they rest on (`cited_marks`), the hypotheses of these, the `$d` with two of their variables, the
/// declarations of the symbols of all these, and the blocks in which an assertion is included.
///
/// Cost: the statements, each `$e` and `$d` once; for each included assertion its own expression
/// and proof, and the active `$d` that `DisjointLists::find_needed` visits; for each variable of an
/// included `$e` the active `$d` that contain it.
pub(crate) fn choose(
    alloc: Global,
    library: &Library,
    labels: &[&str],
) -> Result<Vec<bool>, AllocError> {
    let mut choice = Choice {
        alloc,
        library,
        marks: cited_marks(alloc, library, labels)?,
        symbols: NameTable::new(alloc),
        records: Vec::new(alloc),
        active: Vec::new(alloc),
        active_before_last: 0,
        other_variables: Vec::new(alloc),
        disjoint: DisjointLists::new(alloc),
        to_include: Vec::new(alloc),
        blocks: Vec::new(alloc),
    };
    for (index, statement) in library.statements().iter().enumerate() {
        choice.visit(index + 1, statement)?;
    }
    Ok(choice.marks)
}

impl<'a> Choice<'a> {
    /// Advances past the statement at a position.
    fn visit(&mut self, at: usize, statement: &Stmt) -> Result<(), AllocError> {
        match statement {
            Stmt::Open => self.open_block(at)?,
            Stmt::Close => self.close_block(at),
            Stmt::Const(names) => self.declare(at, names)?,
            Stmt::Var(names) => self.declare(at, names)?,
            Stmt::Disj(names) => self.record_disjoint(at, names)?,
            Stmt::Float { variable, .. } => self.record_float(at, variable.as_bytes())?,
            Stmt::Ess { .. } => self.active.push(at)?,
            Stmt::Axiom { expr, .. } => self.include_needed_by(at, expr, None)?,
            Stmt::Prove { expr, proof, .. } => self.include_needed_by(at, expr, Some(proof))?,
        }
        Ok(())
    }

    /// Opens a block.
    fn open_block(&mut self, at: usize) -> Result<(), AllocError> {
        let active_count = self.active.len();
        self.blocks.push(Block {
            open: at,
            active_count,
            used: false,
        })?;
        Ok(())
    }

    /// Closes the last block, and includes it if it is used.
    fn close_block(&mut self, at: usize) {
        let Some(block) = self.blocks.pop() else {
            return;
        };
        for _ in block.active_count..self.active.len() {
            if let Some(position) = self.active.pop() {
                self.remove_records(position);
            }
        }
        self.active_before_last = self.active_before_last.min(self.active.len());
        if block.used {
            mark(&mut self.marks, Some(block.open));
            mark(&mut self.marks, Some(at));
            self.mark_block_used();
        }
    }

    /// Removes the records of a statement that is no longer active.
    fn remove_records(&mut self, position: usize) {
        match statement_at(self.library.statements(), position) {
            Some(Stmt::Disj(names)) => {
                for name in names.iter() {
                    if let Some(code) = self.symbols.find(name) {
                        self.disjoint.remove_variable(code);
                    }
                }
                self.disjoint.pop();
            }
            Some(Stmt::Float { variable, .. }) => {
                if let Some(record) = self.record(variable.as_bytes()) {
                    record.float = 0;
                }
            }
            Some(Stmt::Ess { expr, .. }) => {
                for name in expr.iter() {
                    self.uncover(position, name);
                }
            }
            _ => {}
        }
    }

    /// Removes the record that the `$e` at a position contains a symbol.
    fn uncover(&mut self, position: usize, name: &[u8]) {
        let Some(code) = self.symbols.find(name) else {
            return;
        };
        let Some(record) = self.records.get_mut(code) else {
            return;
        };
        if record.covered_by == position {
            record.covered_by = 0;
            self.disjoint.uncover(code);
        }
    }

    /// Marks the last open block as used.
    fn mark_block_used(&mut self) {
        if let Some(block) = self.blocks.last_mut() {
            block.used = true;
        }
    }

    /// Returns the record of a symbol, if it was declared.
    fn record(&mut self, name: &[u8]) -> Option<&mut SymbolRecord> {
        let code = self.symbols.find(name)?;
        self.records.get_mut(code)
    }

    /// Records where these symbols are declared.
    fn declare(&mut self, at: usize, names: &Words) -> Result<(), AllocError> {
        for name in names.iter() {
            let code = self.symbols.find_or_add(self.alloc, name)?;
            match self.records.get_mut(code) {
                Some(record) => record.declared = at,
                None => {
                    self.records.push(SymbolRecord {
                        declared: at,
                        float: 0,
                        covered_by: 0,
                        variable_of: 0,
                    })?;
                    self.disjoint.add_symbol(self.alloc)?;
                }
            }
        }
        Ok(())
    }

    /// Records a `$d`.
    fn record_disjoint(&mut self, at: usize, names: &Words) -> Result<(), AllocError> {
        self.active.push(at)?;
        self.disjoint.push(at)?;
        for name in names.iter() {
            if let Some(code) = self.symbols.find(name) {
                self.disjoint.add_variable(code)?;
            }
        }
        Ok(())
    }

    /// Records a `$f`.
    fn record_float(&mut self, at: usize, variable: &[u8]) -> Result<(), AllocError> {
        self.active.push(at)?;
        if let Some(record) = self.record(variable) {
            record.float = at;
        }
        Ok(())
    }

    /// Includes the statements that an assertion needs, if it is included.
    fn include_needed_by(
        &mut self,
        at: usize,
        expr: &Words,
        proof: Option<&Words>,
    ) -> Result<(), AllocError> {
        if !is_marked(&self.marks, at) {
            return Ok(());
        }
        self.other_variables.clear();
        self.include_symbols_of(at, expr)?;
        self.include_essentials()?;
        if let Some(proof) = proof {
            self.include_cited_hypotheses(at, proof)?;
        }
        self.disjoint.find_needed(at, &self.other_variables, &self.marks, &mut self.to_include)?;
        self.include_found();
        self.active_before_last = self.active.len();
        self.mark_block_used();
        Ok(())
    }

    /// Includes the declarations of the symbols of an assertion and the `$f` of its variables, and
    /// records these variables.
    fn include_symbols_of(&mut self, at: usize, expr: &Words) -> Result<(), AllocError> {
        for name in expr.iter() {
            self.include_declaration(name);
            let float = match self.record(name) {
                Some(record) => record.float,
                None => 0,
            };
            if float != 0 {
                self.include_float(float);
                self.record_variable(at, name)?;
            }
        }
        Ok(())
    }

    /// Includes the active `$e` after the last included assertion, and records their variables.
    fn include_essentials(&mut self) -> Result<(), AllocError> {
        for index in self.active_before_last..self.active.len() {
            let Some(position) = self.active.get(index).copied() else {
                return Ok(());
            };
            if let Some(Stmt::Ess { expr, .. }) = statement_at(
                self.library.statements(),
                position,
            ) {
                mark(&mut self.marks, Some(position));
                for name in expr.iter() {
                    self.include_declaration(name);
                    self.include_essential_symbol(position, name)?;
                }
            }
        }
        Ok(())
    }

    /// Includes the `$f` of a symbol of the `$e` at a position and records the symbol, if it is a
    /// variable.
    fn include_essential_symbol(&mut self, position: usize, name: &[u8]) -> Result<(), AllocError> {
        let Some(code) = self.symbols.find(name) else {
            return Ok(());
        };
        let Some(record) = self.records.get_mut(code) else {
            return Ok(());
        };
        if record.float == 0 || record.covered_by != 0 {
            return Ok(());
        }
        record.covered_by = position;
        let float = record.float;
        self.disjoint.cover(code, &mut self.to_include)?;
        self.include_float(float);
        Ok(())
    }

    /// Includes the `$f` at a position, and the declarations of its symbols.
    fn include_float(&mut self, position: usize) {
        if let Some(
            Stmt::Float {
                constant,
                variable,
                ..
            },
        ) = statement_at(self.library.statements(), position)
        {
            mark(&mut self.marks, Some(position));
            self.include_declaration(constant.as_bytes());
            self.include_declaration(variable.as_bytes());
        }
    }

    /// Includes the hypotheses that a proof cites.
    fn include_cited_hypotheses(&mut self, at: usize, proof: &Words) -> Result<(), AllocError> {
        for token in proof.iter() {
            if token == b")".as_slice() {
                return Ok(());
            }
            if let Some(position) = self.library.frames().position(token) {
                self.include_hypothesis(at, position)?;
            }
        }
        Ok(())
    }

    /// Includes a hypothesis that the proof of the assertion at a position cites.
    fn include_hypothesis(&mut self, at: usize, position: usize) -> Result<(), AllocError> {
        match statement_at(self.library.statements(), position) {
            Some(Stmt::Float { variable, .. }) => {
                self.include_float(position);
                self.record_variable(at, variable.as_bytes())?;
            }
            Some(Stmt::Ess { expr, .. }) => {
                mark(&mut self.marks, Some(position));
                self.include_declarations(expr);
            }
            _ => {}
        }
        Ok(())
    }

    /// Records a variable of the assertion at a position, once, unless an active, included `$e`
    /// contains it.
    fn record_variable(&mut self, at: usize, name: &[u8]) -> Result<(), AllocError> {
        let Some(code) = self.symbols.find(name) else {
            return Ok(());
        };
        if let Some(record) = self.records.get_mut(code) {
            if record.variable_of != at && record.covered_by == 0 {
                record.variable_of = at;
                self.other_variables.push(code)?;
            }
        }
        Ok(())
    }

    /// Includes the `$d` of `to_include`.
    fn include_found(&mut self) {
        for index in 0..self.to_include.len() {
            if let Some(position) = self.to_include.get(index).copied() {
                self.include_disjoint(position);
            }
        }
        self.to_include.clear();
    }

    /// Includes the `$d` at a position, if it is not included yet.
    fn include_disjoint(&mut self, position: usize) {
        if is_marked(&self.marks, position) {
            return;
        }
        if let Some(Stmt::Disj(names)) = statement_at(self.library.statements(), position) {
            mark(&mut self.marks, Some(position));
            self.include_declarations(names);
        }
    }

    /// Includes the declarations of these symbols.
    fn include_declarations(&mut self, names: &Words) {
        for name in names.iter() {
            self.include_declaration(name);
        }
    }

    /// Includes the declaration of a symbol.
    fn include_declaration(&mut self, name: &[u8]) {
        if let Some(record) = self.record(name) {
            let declared = record.declared;
            mark(&mut self.marks, Some(declared));
        }
    }
}

/// Returns the statement at a position, counted from 1.
fn statement_at(statements: &[Stmt], position: usize) -> Option<&Stmt> {
    if position == 0 {
        return None;
    }
    statements.get(position - 1)
}
