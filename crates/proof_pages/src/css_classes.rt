//! The CSS classes of the variables of a page, and the typecodes that it shows.
ghost use Rattle.std.specs.Prelude.{◌≡◌, length, get_or, OnOk};
ghost use Rattle.steps.specs.Rows.{no_row};
ghost use Rattle.proof_pages.specs.Colours.{no_classes, page_classes_of_first, with_page_float};
ghost use Rattle.proof_pages.specs.Colours.{page_classes_view, with_page_typecode};

use crate::contents::PageContents;
use crate::typecodes::{Typecodes, class_in, float_at, set_class};
use std::alloc::{AllocError, Global};
use steps::ProofTable;

/// The CSS class of each variable of a page, and the typecodes of these variables.
#[derive(Drop)]
pub(crate) struct CssClasses {
    /// The class of each symbol, indexed by symbol number; 0 if it has none.
    pub by_symbol: Vec<u32>,
    /// The typecodes of the variables of the page, in the order in which they are recorded.
    pub page_typecodes: Vec<u32>,
    /// The class of each of these typecodes, indexed by symbol number; 0 for any other symbol.
    pub recorded: Vec<u32>,
}

impl CssClasses {
    /// Returns tables in which no symbol has a class. Does not allocate.
    pub fn new(alloc: Global) -> CssClasses
        ensures { page_classes_view result ≡ no_classes }
    {
        CssClasses {
            by_symbol: Vec::new(alloc),
            page_typecodes: Vec::new(alloc),
            recorded: Vec::new(alloc),
        }
    }

    /// Gives the variables of the `$f` among the statements at these positions the classes of their
    /// typecodes.
    ///
    /// Errors: an allocation fails. Cost: the number of positions, and tables up to the greatest
    /// symbol number.
    pub fn record_hypotheses(
        &mut self,
        contents: &PageContents<'_>,
        positions: &[u32],
    ) -> Result<(), AllocError>
        ensures { OnOk result (page_classes_view self.new
            ≡ page_classes_of_first contents.now.typecodes.now contents.now.frames.now.names
            contents.now.statements.now contents.now.frames.now.statements
            (λ i. get_or positions.now i 0) (page_classes_view self.old) (length positions.now)) }
    {
        for index in 0..positions.len() {
            let position = positions[index] as usize;
            let float = float_at(contents.statements, contents.frames, position);
            self.record(contents.typecodes, float)?;
        }
        Ok(())
    }

    /// Gives the variables of the `$f` that the steps cite the classes of their typecodes.
    ///
    /// Errors and cost: those of `record_hypotheses`.
    pub fn record_steps(
        &mut self,
        contents: &PageContents<'_>,
        table: &ProofTable,
    ) -> Result<(), AllocError>
        ensures { OnOk result (page_classes_view self.new
            ≡ page_classes_of_first contents.now.typecodes.now contents.now.frames.now.names
            contents.now.statements.now contents.now.frames.now.statements
            (λ i. (get_or table.now i no_row).step.position) (page_classes_view self.old)
            (length table.now)) }
    {
        for index in 0..table.len() {
            let float = float_at(contents.statements, contents.frames, table.position(index));
            self.record(contents.typecodes, float)?;
        }
        Ok(())
    }

    /// Gives the variable of a `$f` the class of its typecode.
    fn record(&mut self, typecodes: &Typecodes, float: Option<(u32, u32)>) -> Result<(), AllocError>
        ensures { OnOk result (page_classes_view self.new
            ≡ with_page_float typecodes.now (page_classes_view self.old) float) }
    {
        match float {
            Some((typecode, variable)) => {
                let css_class = typecodes.class_of(typecode);
                set_class(&mut self.by_symbol, variable, css_class)?;
                self.record_typecode(typecode, css_class)
            }
            None => Ok(()),
        }
    }

    /// Adds a typecode to those of the page, unless it is there already.
    fn record_typecode(&mut self, typecode: u32, css_class: u32) -> Result<(), AllocError>
        ensures { OnOk result (page_classes_view self.new
            ≡ with_page_typecode (page_classes_view self.old) typecode css_class) }
    {
        if class_in(&self.recorded, typecode) == 0 {
            self.page_typecodes.push(typecode)?;
            set_class(&mut self.recorded, typecode, css_class)?;
        }
        Ok(())
    }
}
