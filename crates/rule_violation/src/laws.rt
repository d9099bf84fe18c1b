//! The law of violations: a function that does nothing and ensures a sentence of `specs/Laws`.
ghost use Rattle.rule_violation.specs.Laws.{ViolationsBreakRules};

/// States that a violation of a rule shows that the statement breaks the rule.
pub fn violations_break_rules()
    ensures { ViolationsBreakRules }
{}
