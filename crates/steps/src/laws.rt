//! Laws about the definitions alone. Each is a function that does nothing and ensures a sentence of
//! `specs/Laws`.

ghost use Rattle.steps.specs.Laws.{TakeEarlier, StepsAreDistinct};

/// Each step takes only earlier steps.
pub fn take_earlier()
    ensures { TakeEarlier }
{}

/// No two steps of a table are equal.
pub fn steps_are_distinct()
    ensures { StepsAreDistinct }
{}
