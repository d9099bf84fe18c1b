//! Laws of the definitions, each the contract of a function that does nothing.
ghost use Rattle.proof_code.specs.Laws.{NumbersByFormula, OneListOfItems, OneAnswerEach};

/// States that the place of a word of letters in the order of all words is the number that the
/// formula in base 5 and base 20 gives.
pub fn numbers_by_formula()
    ensures { NumbersByFormula }
{}

/// States that tokens write at most one list of items.
pub fn one_list_of_items()
    ensures { OneListOfItems }
{}

/// States that tokens write items, or are unfinished, or are malformed, and no two of these.
pub fn one_answer()
    ensures { OneAnswerEach }
{}
