//! Laws of tokens, each the contract of a function that does nothing.
ghost use Rattle.mm_lex.specs.Laws.{OneSplit, OneAnswer};

/// States that the runs of a text are split into tokens and comments in at most one way.
pub fn one_split()
    ensures { OneSplit }
{}

/// States that a text has exactly one of tokens, text fault and comment fault, the fault at one
/// offset.
pub fn one_answer()
    ensures { OneAnswer }
{}
