//! Finds the symbol, label or statement that breaks a rule, and the earlier statement with which it
//! conflicts.
//!
//! After a statement is refused, `violation_of` finds what breaks the rule. `find_unclosed_block`
//! finds a `${` whose block is open at the end. `specs/Violations` defines violations.
//!
//! Reading order: `violation`, `search`, `marks`, `symbol_search`, `by_rule`, `laws`.
#![tactic(auto)]

mod by_rule;
mod laws;
mod marks;
mod search;
mod symbol_search;
mod violation;

pub use by_rule::{find_unclosed_block, violation_of};
pub use laws::violations_break_rules;
pub use violation::RuleViolation;
