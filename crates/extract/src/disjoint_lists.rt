//! The active `$d` of a walk over the statements, and which of them contain two variables of an
//! assertion.
//!
//! A statement is *included* if the extract has it: if its position is marked. A symbol is given by
//! its number, `code`.
use crate::cited::is_marked;
use std::alloc::{AllocError, Global};

/// An active `$d`.
#[derive(Clone, Copy)]
struct DisjointList {
    position: usize,
    /// The number of its covered variables.
    covered: usize,
    /// The last assertion whose variables were counted in it.
    counted_for: usize,
    /// The number of variables counted for that assertion.
    count: usize,
}

/// The active `$d` that contain a symbol.
#[derive(Drop)]
struct ListsOfSymbol {
    /// Their indexes, ascending; `$d` that are included may be missing.
    indexes: Vec<usize>,
    /// Whether the symbol is covered.
    covered: bool,
    /// The number of indexes that were visited for an included assertion.
    visited: usize,
    /// The `cover_count` of `DisjointLists` when they were visited.
    cover_count_at_visit: usize,
}

/// The active `$d`, as a stack. A variable is *covered* while an active, included `$e` contains it.
#[derive(Drop)]
pub(crate) struct DisjointLists {
    lists: Vec<DisjointList>,
    /// The lists of each symbol, by its number.
    symbols: Vec<ListsOfSymbol>,
    /// The number of lists that were visited for the last included assertion.
    visited: usize,
    /// How many times a variable became covered.
    cover_count: usize,
}

impl DisjointLists {
    /// Returns an empty stack, without symbols.
    pub(crate) fn new(alloc: Global) -> DisjointLists {
        DisjointLists {
            lists: Vec::new(alloc),
            symbols: Vec::new(alloc),
            visited: 0,
            cover_count: 0,
        }
    }

    /// Adds the symbol with the next number.
    pub(crate) fn add_symbol(&mut self, alloc: Global) -> Result<(), AllocError> {
        self.symbols.push(ListsOfSymbol {
            indexes: Vec::new(alloc),
            covered: false,
            visited: 0,
            cover_count_at_visit: 0,
        })?;
        Ok(())
    }

    /// Pushes the `$d` at a position, without variables.
    pub(crate) fn push(&mut self, position: usize) -> Result<(), AllocError> {
        self.lists.push(DisjointList {
            position,
            covered: 0,
            counted_for: 0,
            count: 0,
        })?;
        Ok(())
    }

    /// Adds a variable to the `$d` on top.
    pub(crate) fn add_variable(&mut self, code: usize) -> Result<(), AllocError> {
        let top = self.lists.len().saturating_sub(1);
        let Some(symbol) = self.symbols.get_mut(code) else {
            return Ok(());
        };
        symbol.indexes.push(top)?;
        if symbol.covered {
            self.count_covered(top);
        }
        Ok(())
    }

    /// Removes a variable from the `$d` on top.
    pub(crate) fn remove_variable(&mut self, code: usize) {
        let top = self.lists.len().saturating_sub(1);
        let Some(symbol) = self.symbols.get_mut(code) else {
            return;
        };
        if symbol.indexes.last().copied() == Some(top) {
            let _top = symbol.indexes.pop();
        }
        symbol.visited = symbol.visited.min(symbol.indexes.len());
    }

    /// Removes the `$d` on top, whose variables were removed before.
    pub(crate) fn pop(&mut self) {
        let _list = self.lists.pop();
        self.visited = self.visited.min(self.lists.len());
    }

    /// Makes a variable covered, and appends the positions of the `$d` that contain it and another
    /// covered variable.
    ///
    /// Cost: the number of `$d` that contain it.
    pub(crate) fn cover(&mut self, code: usize, found: &mut Vec<usize>) -> Result<(), AllocError> {
        self.cover_count = self.cover_count.saturating_add(1);
        if let Some(symbol) = self.symbols.get_mut(code) {
            symbol.covered = true;
        }
        for offset in 0..self.list_count(code) {
            if let Some(index) = self.list_index(code, offset) {
                self.count_covered(index);
                self.push_if_two_covered(index, found)?;
            }
        }
        Ok(())
    }

    /// Makes a variable no longer covered.
    ///
    /// Cost: the number of `$d` that contain it.
    pub(crate) fn uncover(&mut self, code: usize) {
        if let Some(symbol) = self.symbols.get_mut(code) {
            symbol.covered = false;
        }
        for offset in 0..self.list_count(code) {
            if let Some(index) = self.list_index(code, offset) {
                if let Some(list) = self.lists.get_mut(index) {
                    list.covered = list.covered.saturating_sub(1);
                }
            }
        }
    }

    /// Appends the positions of the `$d` that are not included and contain two variables of the
    /// assertion at a position. Its variables are the covered ones and those in `other_variables`,
    /// which lists each once.
    ///
    /// Cost: the number of `$d` that contain a variable of `other_variables`, times a logarithm;
    /// for the variable with the most `$d`, only those not visited since a variable last became
    /// covered. Also each `$d` that was added since the last call.
    pub(crate) fn find_needed(
        &mut self,
        at: usize,
        other_variables: &[usize],
        marks: &[bool],
        found: &mut Vec<usize>,
    ) -> Result<(), AllocError> {
        let most = self.most_listed(other_variables);
        for code in other_variables {
            if !self.is_covered(*code) {
                self.count_variable(at, *code, most, marks, found)?;
            }
        }
        for index in self.visited..self.lists.len() {
            self.push_if_two_covered(index, found)?;
        }
        self.visited = self.lists.len();
        Ok(())
    }

    /// Returns the variable of `other_variables` with the most `$d` among those that are not
    /// covered, or `usize::MAX` if all are covered.
    fn most_listed(&self, other_variables: &[usize]) -> usize {
        let mut most = usize::MAX;
        for code in other_variables {
            if !self.is_covered(*code) && self.list_count(*code) >= self.list_count(most) {
                most = *code;
            }
        }
        most
    }

    /// Counts a variable of the assertion at a position in the `$d` that contain it and are not
    /// included. In each of these the variable `most` is counted too, if the `$d` contains it.
    ///
    /// `most` itself visits only the `$d` that it has not visited since a variable last became
    /// covered: an older one is needed only if it has another of the `other_variables`, which then
    /// visits it.
    fn count_variable(
        &mut self,
        at: usize,
        code: usize,
        most: usize,
        marks: &[bool],
        found: &mut Vec<usize>,
    ) -> Result<(), AllocError> {
        let from = if code == most {
            self.visited_count(code)
        } else {
            0
        };
        for offset in from..self.list_count(code) {
            if let Some(index) = self.list_index(code, offset) {
                if !self.is_included(index, marks) {
                    let has_most = self.is_in_list(most, index);
                    self.count_in(at, index, code != most, has_most, found)?;
                }
            }
        }
        self.remove_included(code, from, marks);
        Ok(())
    }

    /// Counts one more variable of the assertion at a position in a `$d`, if `is_counted`, and
    /// appends the position of the `$d` if the count is 2 or more. The first call for an assertion
    /// and a `$d` starts from the covered variables, plus one if `has_most`.
    fn count_in(
        &mut self,
        at: usize,
        index: usize,
        is_counted: bool,
        has_most: bool,
        found: &mut Vec<usize>,
    ) -> Result<(), AllocError> {
        let Some(list) = self.lists.get_mut(index) else {
            return Ok(());
        };
        if list.counted_for != at {
            list.counted_for = at;
            list.count = list.covered.saturating_add(one_if(has_most));
        }
        list.count = list.count.saturating_add(one_if(is_counted));
        if list.count >= 2 {
            found.push(list.position)?;
        }
        Ok(())
    }

    /// Removes the included `$d` from those recorded for a symbol, from offset `from` on, and
    /// records that all were visited.
    fn remove_included(&mut self, code: usize, from: usize, marks: &[bool]) {
        let mut kept = from;
        for offset in from..self.list_count(code) {
            if let Some(index) = self.list_index(code, offset) {
                if !self.is_included(index, marks) {
                    self.set_list_index(code, kept, index);
                    kept = kept.saturating_add(1);
                }
            }
        }
        let cover_count = self.cover_count;
        if let Some(symbol) = self.symbols.get_mut(code) {
            symbol.indexes.truncate(kept);
            symbol.visited = symbol.indexes.len();
            symbol.cover_count_at_visit = cover_count;
        }
    }

    /// Counts one more variable of a `$d` as covered.
    fn count_covered(&mut self, index: usize) {
        if let Some(list) = self.lists.get_mut(index) {
            list.covered = list.covered.saturating_add(1);
        }
    }

    /// Appends the position of a `$d` if two of its variables are covered.
    fn push_if_two_covered(&self, index: usize, found: &mut Vec<usize>) -> Result<(), AllocError> {
        if let Some(list) = self.lists.get(index) {
            if list.covered >= 2 {
                found.push(list.position)?;
            }
        }
        Ok(())
    }

    /// Returns whether the `$d` at an index is included.
    fn is_included(&self, index: usize, marks: &[bool]) -> bool {
        match self.lists.get(index) {
            Some(list) => is_marked(marks, list.position),
            None => true,
        }
    }

    /// Returns whether a symbol is covered.
    fn is_covered(&self, code: usize) -> bool {
        match self.symbols.get(code) {
            Some(symbol) => symbol.covered,
            None => true,
        }
    }

    /// Returns the number of `$d` that are recorded for a symbol.
    fn list_count(&self, code: usize) -> usize {
        match self.symbols.get(code) {
            Some(symbol) => symbol.indexes.len(),
            None => 0,
        }
    }

    /// Returns the number of these that were visited since a variable last became covered.
    fn visited_count(&self, code: usize) -> usize {
        match self.symbols.get(code) {
            Some(symbol) if symbol.cover_count_at_visit == self.cover_count => symbol.visited,
            _ => 0,
        }
    }

    /// Returns the index of the `$d` at an offset among those of a symbol.
    fn list_index(&self, code: usize, offset: usize) -> Option<usize> {
        self.symbols.get(code)?.indexes.get(offset).copied()
    }

    /// Replaces the index at an offset among the `$d` of a symbol.
    fn set_list_index(&mut self, code: usize, offset: usize, index: usize) {
        if let Some(symbol) = self.symbols.get_mut(code) {
            if let Some(old) = symbol.indexes.get_mut(offset) {
                *old = index;
            }
        }
    }

    /// Returns whether a `$d` is recorded for a symbol.
    fn is_in_list(&self, code: usize, index: usize) -> bool {
        match self.symbols.get(code) {
            Some(symbol) => symbol.indexes.binary_search(&index).is_ok(),
            None => false,
        }
    }
}

/// Returns 1 if `yes`, else 0.
fn one_if(yes: bool) -> usize {
    if yes { 1 } else { 0 }
}
