//! Verdicts and causes of refusals as text.
ghost use Rattle.std.specs.Prelude.{◌≡◌, ◌++◌, decimal, OnOk};
ghost use Rattle.printed.specs.Printed.{cause_text, rule_text, verdict_text};

use library::{Cause, Verdict};
use scope::Rule;
use std::alloc::AllocError;
use text::push_number;

/// Appends the verdict, and the cause of a refusal, without a line feed.
pub fn push_verdict(text: &mut Vec<u8>, verdict: Verdict) -> Result<(), AllocError>
    ensures { OnOk result (text.new.items ≡ text.old.items ++ verdict_text verdict) }
{
    match verdict {
        Verdict::Added => text.extend_from_slice(b"added"),
        Verdict::Nothing => text.extend_from_slice(b"nothing"),
        Verdict::Repeat => text.extend_from_slice(b"repeat"),
        Verdict::Refused(cause) => {
            text.extend_from_slice(b"refused ")?;
            push_cause(text, cause)
        }
    }
}

/// Appends the code of a cause, with its statement and rule if it has them.
fn push_cause(text: &mut Vec<u8>, cause: Cause) -> Result<(), AllocError>
    ensures { OnOk result (text.new.items ≡ text.old.items ++ cause_text cause) }
{
    match cause {
        Cause::TooLong => text.extend_from_slice(b"C1"),
        Cause::Text => text.extend_from_slice(b"C2"),
        Cause::Shape => text.extend_from_slice(b"C3"),
        Cause::NotChartered { statement } => push_code_and_statement(text, b"C7 ", statement),
        Cause::Rule { statement, rule } => {
            push_code_and_statement(text, b"C4 ", statement)?;
            text.extend_from_slice(b" ")?;
            text.extend_from_slice(rule_name(rule))
        }
        Cause::Proof { statement } => push_code_and_statement(text, b"C5 ", statement),
        Cause::Unfinished { statement } => push_code_and_statement(text, b"C6 ", statement),
        Cause::TooCostly { statement } => push_code_and_statement(text, b"C8 ", statement),
        Cause::LeavesHypotheses { statement } => push_code_and_statement(text, b"C9 ", statement),
    }
}

/// Appends a code and the number of a statement.
fn push_code_and_statement(
    text: &mut Vec<u8>,
    code: &[u8],
    statement: usize,
) -> Result<(), AllocError>
    ensures { OnOk result (text.new.items ≡ text.old.items ++ code.now ++ decimal statement) }
{
    text.extend_from_slice(code)?;
    push_number(text, statement as u64)
}

/// Returns the name of a rule.
fn rule_name(rule: Rule) -> &'static [u8]
    ensures { result.now ≡ rule_text rule }
{
    match rule {
        Rule::G1 => b"G1",
        Rule::G2 => b"G2",
        Rule::G3 => b"G3",
        Rule::G4 => b"G4",
        Rule::G5 => b"G5",
        Rule::G6 => b"G6",
        Rule::G7 => b"G7",
        Rule::G8 => b"G8",
        Rule::G9 => b"G9",
        Rule::G10 => b"G10",
        // No rule, but a failed allocation: no library refuses with it.
        Rule::Memory => b"",
    }
}
