//! The laws of reading and writing, each the contract of a function that does nothing.
ghost use Rattle.mm_read.specs.Laws.{OneStatementList, StatementsOrFault, OneShapeFault};
ghost use Rattle.mm_read.specs.Laws.{ExportReads, JoinedReads};

/// States that each list of tokens reads as at most one list of statements.
pub fn one_statement_list()
    ensures { OneStatementList }
{}

/// States that each list of tokens reads as some list of statements, or has a shape fault: a
/// misplaced token, or an end within a statement.
pub fn statements_or_fault()
    ensures { StatementsOrFault }
{}

/// States that each list of tokens has at most one shape fault.
pub fn one_shape_fault()
    ensures { OneShapeFault }
{}

/// States that the export form of statements reads as these statements.
pub fn export_reads()
    ensures { ExportReads }
{}

/// States that two joined texts read as the statements of the first followed by those of the
/// second, if each of them reads as statements and joining them does not make one word of two.
pub fn joined_reads()
    ensures { JoinedReads }
{}
