//! The texts that the program prints of databases, verdicts, packets, libraries and derivations.
//! Each `push_` call appends a text to an answer. Unless its comment says otherwise, it fails only
//! if an allocation fails, and its cost is the size of the text. After a failure the answer is not
//! specified.
//!
//! In a clause `text.old` and `text.new` are the answer before and after the call, `a.now` is what
//! a shared reference `a` refers to, and `OnOk result P` says P if the result is `Ok`.
//!
//! Crates above use the clause of each call: the appended text is exactly that of a definition in
//! `specs`. `C1` to `C9` are the causes of a refusal (`library::Cause`), `G1` to `G10` the rules of
//! a database (`scope::Rule`).
//!
//! Reading order: `verdict_text`, `packets`, `answers` (logs, lists and exports), `counted`,
//! `states`, `healths`, `tree_text`; `broken_rules` (the first statement of a database that breaks a
//! rule) and `outline`.
#![tactic(auto)]

mod answers;
mod broken_rules;
mod counted;
mod healths;
mod outline;
mod packets;
mod states;
mod tree_text;
mod verdict_text;

pub use answers::{
    push_assertions, push_export, push_library_list, push_list, push_log, push_ok,
    push_verdict_line,
};
pub use broken_rules::first_broken_rule;
pub use counted::{push_carried_log, push_counted_lines};
pub use healths::push_health;
pub use outline::outline_text;
pub use packets::push_packet;
pub use states::push_state;
pub use tree_text::{push_labels, push_tree};
pub use verdict_text::push_verdict;
