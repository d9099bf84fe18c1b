//! The assertions of a library, and its statements as a text.
ghost use Rattle.std.specs.Prelude.{◌≡◌, IfOk};
ghost use Rattle.library.specs.Listed.{listed};
ghost use Rattle.mm_read.specs.Export.{export_of};
ghost use Rattle.mm_read.specs.Reads.{Reads};

use crate::library::Library;
use mm_lex::Word;
use mm_read::{Stmt, spell};
use std::alloc::AllocError;

/// An assertion as `Library::list` returns it: by its label and its kind.
#[derive(Drop)]
pub struct Listed {
    pub label: Word,
    /// Whether it is a `$p`.
    pub proved: bool,
}

impl Library {
    /// Returns the assertions, in order.
    ///
    /// Errors: an allocation fails. Cost: that of all statements.
    pub fn list(&self) -> Result<Vec<Listed>, AllocError>
        ensures { IfOk result (λ list. list.items ≡ listed self.now.replica.statements) }
    {
        let alloc = self.database().alloc();
        let mut list = Vec::new(alloc);
        for statement in self.statements() {
            let (label, proved) = match statement {
                Stmt::Axiom { label, .. } => (label.copy(alloc)?, false),
                Stmt::Prove { label, .. } => (label.copy(alloc)?, true),
                _ => continue,
            };
            list.push(Listed { label, proved })?;
        }
        Ok(list)
    }

    /// Writes the statements as a text in the export form, which reads as exactly the statements.
    ///
    /// Errors: an allocation fails. Cost: the size of the text.
    pub fn export(&self) -> Result<Vec<u8>, AllocError>
        ensures text { IfOk result (λ text. text.items ≡ export_of self.now.replica.statements) }
        ensures reads { IfOk result (λ text. Reads text.items self.now.replica.statements) }
    {
        spell(self.database().alloc(), self.statements())
    }
}
