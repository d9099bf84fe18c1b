//! Laws about the definitions alone. Each is a function that does nothing and ensures a sentence of
//! `specs/Laws`.

ghost use Rattle.verify.specs.Laws.{RunsSpell, SpellingsRun, SpelledOnce};

/// A run that ends with one result spells a derivation of it.
pub fn runs_spell()
    ensures { RunsSpell }
{}

/// Items that spell a derivation run to the expression that it concludes, with the same weight, if
/// an assertion's premises determine its conclusion.
pub fn spellings_run()
    ensures { SpellingsRun }
{}

/// On legal statements the items of a proof spell at most one derivation.
pub fn spelled_once()
    ensures { SpelledOnce }
{}
