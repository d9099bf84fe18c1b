//! The laws of substitution and of the disjoint variable condition, each the contract of a function
//! that does nothing.
ghost use Rattle.subst.specs.Laws.{SubstitutionOverNames, DisjointConditionLaw};

/// Substitution over numbers is substitution over the names that they stand for.
pub fn substitution_over_names()
    ensures { SubstitutionOverNames }
{}

/// The disjoint variable condition holds if and only if, for each two variables that it is about,
/// their images meet the two conditions of the Metamath book.
pub fn disjoint_condition_law()
    ensures { DisjointConditionLaw }
{}
