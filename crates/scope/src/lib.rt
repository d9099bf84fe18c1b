//! Decides whether a statement is legal after the earlier ones, by the rules G1 to G10, and which
//! statements are active.
//!
//! `Scope::add` appends the next statement only if it is legal, and else returns the least rule
//! that it breaks. `Rules` does the same in two calls, `broken_rule` and `accept`, with a numbering
//! that its callers pass, so that one table of names serves rules and frames.
//!
//! Reading order: `rule`, `frame_statements` and `steps`; `scope`, `queries` and `rules`; `legal`
//! decides the rules, `accept` updates their state by a legal statement, and `declare` the
//! numbering; `numbering`, `stack`, `stack_heights`, `history` and `symbol_numbers` are the parts;
//! `laws` states which statements are active.
#![tactic(auto)]

mod accept;
mod declare;
mod frame_statements;
mod history;
mod laws;
mod legal;
mod numbering;
mod queries;
mod rule;
mod rules;
mod scope;
mod stack;
mod stack_heights;
mod steps;
mod symbol_numbers;

pub use declare::declare_names;
pub use frame_statements::FrameStatement;
pub use history::History;
pub use laws::{
    active_after_blocks, active_after_close, active_after_statement, active_by_counts,
    rules_ignore_proofs,
};
pub use numbering::{NameKind, Numbering};
pub use rule::Rule;
pub use rules::Rules;
pub use scope::Scope;
pub use stack::Stack;
pub use steps::Steps;
pub use symbol_numbers::SymbolNumbers;
