//! The statements that are left when each that breaks a rule is left out.
ghost use Rattle.std.specs.Prelude.{◌≡◌, suc, ◌+◌, ◌<◌, ◌^◌, [], ◌∷◌, ◌++◌, length, IfOk, OnOk};
ghost use Rattle.mm_read.specs.Statements.{AreShaped, Database};
ghost use Rattle.scope.specs.Legal.{AllLegal, broken_rule};
ghost use Rattle.unproved.specs.LegalPart.{IsLegalPart, IsSifted, both, closed, frames_after};
ghost use Rattle.unproved.specs.LegalPart.{open_after, open_step, sift_by, text_position};

use crate::legal_database::LegalDatabase;
use frame::Frames;
use mm_read::Stmt;
use scope::{Rule, Rules, Steps};
use std::alloc::{AllocError, Global};

/// A statement that breaks a rule after the earlier ones that are kept.
#[derive(Drop)]
pub struct LeftOut {
    /// Its position in the text, counted from 1.
    pub position: usize,
    /// The least rule that it breaks.
    pub rule: Rule,
    /// The statement.
    pub statement: Stmt,
}

/// The statements of a text of which those that break a rule are left out.
#[derive(Drop)]
pub struct LegalPart {
    /// The statements that are kept, and a `$}` for each block that is open at their end.
    pub database: LegalDatabase,
    /// How many blocks are open at the end of those that are kept.
    pub open_blocks: usize,
    /// Those that are left out, in order.
    pub left_out: Vec<LeftOut>,
}

/// Leaves out each statement that breaks a rule after the earlier ones that are kept, and closes
/// the blocks that are open at the end.
///
/// Errors: an allocation fails. Cost: the size of the statements.
/// Source: Metamath, chapter 4; that the others are kept is this project's choice.
pub fn keep_legal(alloc: Global, statements: Vec<Stmt>) -> Result<LegalPart, AllocError>
    requires { AreShaped statements.items }
    ensures { IfOk result (IsLegalPart statements.items) }
{
    let sifter = sift(alloc, statements)?;
    let Sifter {
        mut kept,
        left_out,
        ..
    } = sifter;
    let open_blocks = close_blocks(&mut kept)?;
    let database = legal_database(alloc, kept)?;
    Ok(LegalPart {
        database,
        open_blocks,
        left_out,
    })
}

/// Makes a `LegalDatabase` of legal statements.
///
/// Errors: an allocation fails.
fn legal_database(alloc: Global, statements: Vec<Stmt>) -> Result<LegalDatabase, AllocError>
    requires shaped { AreShaped statements.items }
    requires legal { AllLegal statements.items }
    ensures { IfOk result (λ database. database ≡ statements.items) }
{
    match LegalDatabase::new(alloc, statements)? {
        Some(database) => Ok(database),
        None => unreachable!(),
    }
}

/// The statements so far: those that are kept, with their rules and frames, and those that are left
/// out.
#[derive(Drop)]
struct Sifter {
    rules: Rules,
    frames: Frames,
    kept: Vec<Stmt>,
    left_out: Vec<LeftOut>,
    /// The position of the last one.
    position: usize,
}

/// Divides the statements into those that are kept and those that are left out.
///
/// Errors: an allocation fails.
fn sift(alloc: Global, statements: Vec<Stmt>) -> Result<Sifter, AllocError>
    ensures { IfOk result (IsSifted statements.items) }
{
    let mut sifter = Sifter {
        rules: Rules::new(alloc),
        frames: Frames::new(alloc),
        kept: Vec::new(alloc),
        left_out: Vec::new(alloc),
        position: 0,
    };
    for statement in statements {
        sift_next(&mut sifter, statement)?;
    }
    Ok(sifter)
}

/// Keeps the next statement, or leaves it out if it breaks a rule.
///
/// Errors: an allocation fails.
fn sift_next(sifter: &mut Sifter, statement: Stmt) -> Result<(), AllocError>
    requires { sifter.old.rules.statements ≡ sifter.old.frames.statements }
    ensures { (S : Database) → IsSifted S sifter.old
        → OnOk result (IsSifted (S ++ statement ∷ []) sifter.new) }
{
    let next = next_position(sifter.position)?;
    let broken = find_broken_rule(&mut sifter.rules, &mut sifter.frames, &statement)?;
    take_statement(
        &mut sifter.kept,
        &mut sifter.left_out,
        broken,
        next,
        statement,
    )?;
    sifter.position = next;
    Ok(())
}

/// Returns the position after this one.
fn next_position(position: usize) -> Result<usize, AllocError>
    ensures { IfOk result (λ next. next ≡ position + 1) }
{
    match position.checked_add(1) {
        Some(next) => Ok(next),
        None => Err(AllocError),
    }
}

/// Keeps a statement that breaks no rule, and leaves out one that breaks this rule.
///
/// Errors: an allocation fails.
fn take_statement(
    kept: &mut Vec<Stmt>,
    left_out: &mut Vec<LeftOut>,
    broken: Option<Rule>,
    position: usize,
    statement: Stmt,
) -> Result<(), AllocError>
    ensures kept { OnOk result (kept.new.items
        ≡ (sift_by (both kept.old.items left_out.old.items) position statement broken).kept) }
    ensures left_out { OnOk result (left_out.new.items
        ≡ (sift_by (both kept.old.items left_out.old.items) position statement broken).left_out) }
{
    match broken {
        None => {
            kept.push(statement)?;
            Ok(())
        }
        Some(rule) => {
            left_out.push(LeftOut {
                position,
                rule,
                statement,
            })?;
            Ok(())
        }
    }
}

/// Appends the statement to the rules and the frames, or returns the least rule that it breaks.
///
/// Errors: an allocation fails.
fn find_broken_rule(
    rules: &mut Rules,
    frames: &mut Frames,
    statement: &Stmt,
) -> Result<Option<Rule>, AllocError>
    requires { rules.old.statements ≡ frames.old.statements }
    ensures same { OnOk result (rules.new.statements ≡ frames.new.statements) }
    ensures broken { IfOk result (λ rule. rule ≡ broken_rule frames.old.statements statement.now) }
    ensures added { IfOk result (λ rule. frames.new.statements
        ≡ frames_after rule frames.old.statements statement.now) }
{
    let mut steps = Steps::new();
    match frames.add(rules, statement, &mut steps) {
        Ok(()) => Ok(None),
        Err(rule) => {
            if rule == Rule::Memory {
                return Err(AllocError);
            }
            Ok(Some(rule))
        }
    }
}

/// Appends a `$}` for each block that is open at the end, and returns how many there are.
///
/// Errors: an allocation fails.
pub fn close_blocks(statements: &mut Vec<Stmt>) -> Result<usize, AllocError>
    ensures closed { OnOk result (statements.new.items ≡ closed statements.old.items) }
    ensures count { IfOk result (λ count. count ≡ open_after 0 statements.old.items) }
    ensures shaped { AreShaped statements.old.items → OnOk result (AreShaped statements.new.items) }
{
    let count = count_open_blocks(statements);
    for _block in 0..count {
        statements.push(Stmt::Close)?;
    }
    Ok(count)
}

/// Returns how many blocks are open at the end.
fn count_open_blocks(statements: &[Stmt]) -> usize
    ensures { result ≡ open_after 0 statements.now }
{
    let mut depth = 0usize;
    for statement in statements {
        depth = depth_after(depth, statement);
    }
    depth
}

/// Returns how many blocks are open after a statement, given how many are open before it.
fn depth_after(depth: usize, statement: &Stmt) -> usize
    requires { suc depth < 2 ^ 64 }
    ensures { result ≡ open_step depth statement.now }
{
    match statement {
        Stmt::Open => depth + 1,
        Stmt::Close => depth.saturating_sub(1),
        _ => depth,
    }
}

/// Returns the position in the text of the statement at a position among those that are kept.
///
/// Cost: the number of those that are left out before it.
pub fn text_position(left_out: &[LeftOut], at: usize) -> usize
    ensures { at + length left_out.now < 2 ^ 64 → result ≡ text_position left_out.now at }
{
    let mut position = at;
    for left in left_out {
        if left.position > position {
            return position;
        }
        position = position.saturating_add(1);
    }
    position
}
