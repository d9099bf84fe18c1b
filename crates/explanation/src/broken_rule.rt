//! Explains which rule a statement breaks.
use crate::left_out::push_left_out;
use crate::statement_symbols::{first_symbol_token, label_of, symbol_at};
use crate::text_tokens::TextTokens;
use crate::written_lines::Lines;
use mm_read::{ReadFault, Stmt, read};
use rule_violation::{RuleViolation, find_unclosed_block, violation_of};
use scope::Rule;
use std::alloc::Global;
use unproved::{LeftOut, text_position};

/// A statement of a text, and the rule that it breaks.
#[derive(Clone, Copy)]
pub(crate) struct RuleContext<'a> {
    pub(crate) tokens: &'a TextTokens<'a>,
    /// The earlier statements that are kept.
    pub(crate) earlier: &'a [Stmt],
    /// Those of the text that are left out.
    pub(crate) left_out: &'a [LeftOut],
    /// The position of the statement in the text, counted from 1.
    pub(crate) statement: usize,
    pub(crate) rule: Rule,
}

/// Writes how the statement breaks the rule: the symbol or label that breaks it, if one does, and
/// the place of the earlier use of the same name with which it conflicts, if there is one.
pub(crate) fn explain_rule(
    alloc: Global,
    lines: &mut Lines<'_>,
    text: &[u8],
    statement: usize,
    rule: Rule,
) {
    match read(alloc, text) {
        Ok(statements) => explain_in_statements(
            alloc,
            lines,
            text,
            statements.as_slice(),
            statement,
            rule,
        ),
        Err(ReadFault::Memory) => lines.fail(),
        Err(_) => {}
    }
}

/// Writes the rule that the statement breaks, given the statements of the text: a statement of the
/// text, or one after the last if a block is open at the end.
fn explain_in_statements(
    alloc: Global,
    lines: &mut Lines<'_>,
    text: &[u8],
    statements: &[Stmt],
    statement: usize,
    rule: Rule,
) {
    let Some(tokens) = lines.ok_or_fail(TextTokens::new(alloc, text)) else {
        return;
    };
    let index = statement.saturating_sub(1).min(statements.len());
    let (earlier, rest) = statements.split_at(index);
    match rest.get(0) {
        Some(stmt) => {
            let context = RuleContext {
                tokens: &tokens,
                earlier,
                left_out: &[],
                statement,
                rule,
            };
            explain_statement(alloc, lines, &context, stmt);
        }
        None => explain_open_block(lines, &tokens, earlier, &[]),
    }
}

/// Writes that a block is never closed, given the statements of a text that are kept, and those
/// that are left out.
pub(crate) fn explain_open_block(
    lines: &mut Lines<'_>,
    tokens: &TextTokens<'_>,
    kept: &[Stmt],
    left_out: &[LeftOut],
) {
    if let Some(open) = find_unclosed_block(kept) {
        let statement = text_position(left_out, open);
        lines.push_place(tokens.text(), tokens.start_of(statement, 1));
        lines.push(b": this block is never closed\n");
    }
}

/// Writes `LINE:COLUMN: ` for a token of a statement.
fn push_token_place_and_colon(
    lines: &mut Lines<'_>,
    context: &RuleContext<'_>,
    statement: usize,
    token: usize,
) {
    push_token_place(lines, context, statement, token);
    lines.push(b": ");
}

/// Writes `LINE:COLUMN` for a token of a statement.
fn push_token_place(
    lines: &mut Lines<'_>,
    context: &RuleContext<'_>,
    statement: usize,
    token: usize,
) {
    let tokens = context.tokens;
    lines.push_place(tokens.text(), tokens.start_of(statement, token));
}

/// Writes which rule the statement breaks, and by which of its symbols or its label.
pub(crate) fn explain_statement(
    alloc: Global,
    lines: &mut Lines<'_>,
    context: &RuleContext<'_>,
    stmt: &Stmt,
) {
    let violation = violation_of(alloc, context.earlier, stmt, context.rule);
    if let Some(Some(violation)) = lines.ok_or_fail(violation) {
        explain_violation(lines, context, stmt, violation);
    }
}

/// Writes how the statement violates the rule.
fn explain_violation(
    lines: &mut Lines<'_>,
    context: &RuleContext<'_>,
    stmt: &Stmt,
    violation: RuleViolation,
) {
    match violation {
        RuleViolation::Statement => explain_whole_statement(lines, context),
        RuleViolation::Symbol { symbol_index } => explain_symbol(
            lines,
            context,
            stmt,
            symbol_index,
        ),
        RuleViolation::Twice { first, second } => explain_twice(
            lines, context, stmt, first, second,
        ),
        RuleViolation::SymbolConflict {
            symbol_index,
            earlier_position,
        } => {
            explain_symbol_conflict(lines, context, stmt, symbol_index, earlier_position);
        }
        RuleViolation::LabelConflict { earlier_position } => explain_label_conflict(
            lines,
            context,
            stmt,
            earlier_position,
        ),
    }
}

/// Writes that a `$c` is inside a block, or that a `$}` closes none.
fn explain_whole_statement(lines: &mut Lines<'_>, context: &RuleContext<'_>) {
    push_token_place_and_colon(lines, context, context.statement, 1);
    // G1: a `$c` is in the outermost block. The other rule that a whole statement breaks is G10: a
    // `$}` closes a block.
    if context.rule == Rule::G1 {
        return lines.push(
            b"this $c stands inside a block; constants are declared outside all blocks\n",
        );
    }
    lines.push(b"this $} closes no block\n");
}

/// Writes the place of a symbol of the statement, and the symbol.
fn push_symbol(lines: &mut Lines<'_>, context: &RuleContext<'_>, stmt: &Stmt, symbol: usize) {
    let token = first_symbol_token(stmt).saturating_add(symbol);
    push_token_place_and_colon(lines, context, context.statement, token);
    lines.push(symbol_at(stmt, symbol));
}

/// Writes which symbol violates the rule, and why.
fn explain_symbol(lines: &mut Lines<'_>, context: &RuleContext<'_>, stmt: &Stmt, symbol: usize) {
    push_symbol(lines, context, stmt, symbol);
    // G5: each symbol of an expression is a constant or an active variable. G6: the first is a
    // constant. G9: each variable has an active `$f`. Otherwise the symbol must be an active
    // variable: the second of a `$f` (G7), or one of a `$d` (G8).
    match context.rule {
        Rule::G5 => lines.push(b" is neither a constant nor an active variable\n"),
        Rule::G6 => lines.push(b" is no constant, and an expression begins with a constant\n"),
        Rule::G9 => lines.push(b" is a variable that has no active $f\n"),
        _ => lines.push(b" is no active variable\n"),
    }
    push_left_out(
        lines,
        context.tokens,
        context.left_out,
        symbol_at(stmt, symbol),
    );
}

/// Writes that a symbol occurs twice in the statement, and where it occurs first.
fn explain_twice(
    lines: &mut Lines<'_>,
    context: &RuleContext<'_>,
    stmt: &Stmt,
    first: usize,
    second: usize,
) {
    push_symbol(lines, context, stmt, second);
    lines.push(b" stands twice in this statement\n  first at ");
    let token = first_symbol_token(stmt).saturating_add(first);
    push_token_place(lines, context, context.statement, token);
    lines.push(b"\n");
}

/// Writes that another statement uses the symbol, and where.
fn explain_symbol_conflict(
    lines: &mut Lines<'_>,
    context: &RuleContext<'_>,
    stmt: &Stmt,
    symbol: usize,
    other: usize,
) {
    push_symbol(lines, context, stmt, symbol);
    push_other_use(lines, context, symbol_at(stmt, symbol), other);
}

/// Writes that another statement uses the label, and where.
fn explain_label_conflict(
    lines: &mut Lines<'_>,
    context: &RuleContext<'_>,
    stmt: &Stmt,
    other: usize,
) {
    push_token_place_and_colon(lines, context, context.statement, 1);
    lines.push(label_of(stmt));
    push_other_use(lines, context, label_of(stmt), other);
}

/// Writes how the other statement uses the name, and where.
fn push_other_use(lines: &mut Lines<'_>, context: &RuleContext<'_>, name: &[u8], other: usize) {
    let Some(stmt) = context.earlier.get(other.saturating_sub(1)) else {
        lines.push(b"\n");
        return;
    };
    let (message, token) = use_of(stmt, name);
    lines.push(message);
    lines.push(b"\n  at ");
    push_token_place(
        lines,
        context,
        text_position(context.left_out, other),
        token,
    );
    lines.push(b"\n");
}

/// Returns the message for how a statement uses a name, and the number, from 1, of the token that
/// is the name; for a variable of a `$f`, of the label of the `$f`.
fn use_of(stmt: &Stmt, name: &[u8]) -> (&'static [u8], usize) {
    match stmt {
        Stmt::Const(names) => (
            b" is declared as a constant already",
            2usize.saturating_add(index_of(names, name)),
        ),
        Stmt::Var(names) => (
            b" is declared as a variable already",
            2usize.saturating_add(index_of(names, name)),
        ),
        Stmt::Float { label, .. } if label.as_bytes() != name => (b" has an active $f already", 1),
        _ => (b" is a label already", 1),
    }
}

/// Returns the index of a name among these names, or 0 if it is not one of them.
fn index_of(names: &mm_lex::Words, name: &[u8]) -> usize {
    let mut index = 0usize;
    let mut rest = names.iter();
    while let Some(other) = rest.next() {
        if other == name {
            return index;
        }
        index = index.saturating_add(1);
    }
    0
}
