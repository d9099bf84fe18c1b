//! The law of assumed statements: a function that does nothing and ensures a sentence of
//! `specs/Laws`.
ghost use Rattle.unproved.specs.Laws.{AssumedIsGood};

/// Legal statements with exactly their unproved `$p` replaced by `$a` are good.
pub fn assumed_statements_are_good()
    ensures { AssumedIsGood }
{}
