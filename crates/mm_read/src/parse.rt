//! Reads the statements of a text, one after another.
ghost use Rattle.std.specs.Prelude.{◌≡◌, ℕ, ◌≤◌, ◌⊎◌, [], IfOk, IfErr, IsErrAnd, MatchResult};
ghost use Rattle.std.specs.Prelude.{length};
ghost use Rattle.mm_lex.specs.Tokens.{HasOnlyAllowedBytes};
ghost use Rattle.mm_lex.specs.TextFaults.{IsFirstBadByte, IsCommentFault};
ghost use Rattle.mm_lex.specs.Between.{IsCommentFaultAfter};
ghost use Rattle.mm_read.specs.Statements.{Database};
ghost use Rattle.mm_read.specs.Reads.{Reads, HasShapeFault, IsReadFault};
ghost use Rattle.mm_read.specs.Next.{IsNextStep, IsFaultAfter, ReadsUpTo, IsFaultOf};

use crate::fault::ReadFault;
use crate::statement::statement;
use crate::stmt::Stmt;
use mm_lex::{LexFault, count_tokens, first_bad_byte, next_token};
use std::alloc::Global;

/// How many bytes of text are read between two allocations of `grow_heap`.
const BYTES_BETWEEN_GROWTHS: usize = 90_000;

/// How many bytes `grow_heap` allocates: more than the statements of `BYTES_BETWEEN_GROWTHS` bytes
/// of text usually take.
const GROWTH_BYTES: usize = 120_000;

/// Returns the statements that the text reads as.
///
/// Errors: `Text`, with the first byte that is not allowed or else the comment fault, even if every
/// allocation fails; else `Shape`, with the number of the first misplaced token, or the number of
/// tokens plus 1 if the text ends within a statement. If an allocation fails, it may return
/// `Memory` in place of `Shape` or of the statements. Cost: the size of the text.
/// Source: Metamath, 4.1 and appendix E.
pub fn read(alloc: Global, text: &[u8]) -> Result<Vec<Stmt>, ReadFault>
    ensures found { IfOk result (λ statements. Reads text.now statements.items) }
    ensures fault { IfErr result (IsReadFault text.now) }

    // If the text reads as statements, these are returned, or `Memory`.
    ensures statements { (S : Database) → Reads text.now S
        → MatchResult result (λ statements. statements.items ≡ S) (λ fault. fault ≡ ReadFault.Memory) }

    // The first byte that is not allowed, or a comment fault, is returned even if every allocation
    // fails. In place of a shape fault, `Memory` may be returned.
    ensures text_fault { (offset : ℕ) → IsFirstBadByte text.now offset
        → result ≡ Err (ReadFault.Text (LexFault.Text offset)) }
    ensures comment_fault { (offset : ℕ) → IsCommentFault text.now offset
        → result ≡ Err (ReadFault.Text (LexFault.Comment offset)) }
    ensures shape { (token : ℕ) → HasShapeFault text.now token
        → IsErrAnd result (λ fault. (fault ≡ ReadFault.Shape token) ⊎ (fault ≡ ReadFault.Memory)) }
{
    if let Some(offset) = first_bad_byte(text) {
        return Err(ReadFault::Text(LexFault::Text { offset }));
    }
    statements(alloc, text)
}

/// Returns the statements that the text reads as. Its bytes are all allowed.
fn statements(alloc: Global, text: &[u8]) -> Result<Vec<Stmt>, ReadFault>
    requires { HasOnlyAllowedBytes text.now }
    ensures found { IfOk result (λ statements. Reads text.now statements.items) }
    ensures fault { IfErr result (IsFaultOf text.now) }
{
    let mut statements = Vec::new(alloc);
    let mut at = 0;
    loop {
        match add_next(alloc, &mut statements, text, at) {
            Ok(Some(next)) => at = next,
            Ok(None) => return Ok(statements),
            Err(fault) => return Err(whole_text_fault(text, at, fault)?),
        }
    }
}

/// Appends the next statement after `at`; returns the offset after the statement, or `None` if no
/// token is left.
///
/// Errors: those of `statement`, and `Text`, for a comment fault before the statement.
fn add_next(
    alloc: Global,
    statements: &mut Vec<Stmt>,
    text: &[u8],
    at: usize,
) -> Result<Option<usize>, ReadFault>
    requires allowed { HasOnlyAllowedBytes text.now }
    requires place { at ≤ length text.now }
    ensures next { IfOk result (IsNextStep text.now at statements.old.items statements.new.items) }
    ensures fault { IfErr result (IsFaultAfter text.now [] at) }
{
    let Some(first) = next_token(text, at)? else {
        return Ok(None);
    };
    let (statement, next) = statement(alloc, text, first)?;
    statements.push(statement)?;
    grow_heap(alloc, at, next);
    Ok(Some(next))
}

/// Saves time: allocates a block and frees it at once, so that the heap grows once for hundreds of
/// statements. Without it the heap of a thread may grow with each request.
///
/// It does so only if a multiple of `BYTES_BETWEEN_GROWTHS` lies after `at` and up to `next`, so at
/// most once for that many bytes of text. It ignores a failed allocation.
fn grow_heap(alloc: Global, at: usize, next: usize) {
    if at / BYTES_BETWEEN_GROWTHS != next / BYTES_BETWEEN_GROWTHS {
        let _ = Vec::<u8>::with_capacity(alloc, GROWTH_BYTES);
    }
}

/// Returns the fault of the whole text, given that the statements up to `at` are read and that
/// `fault` is why the next one is not. A `Shape` in `fault` counts tokens from `at`; the one that
/// it returns counts them from the start of the text.
///
/// Errors: the comment fault of the text, if there is one: it takes precedence over `fault`. Cost:
/// the size of the text.
fn whole_text_fault(text: &[u8], at: usize, fault: ReadFault) -> Result<ReadFault, LexFault>
    requires allowed { HasOnlyAllowedBytes text.now }
    requires place { at ≤ length text.now }
    requires before { (S : Database) × ReadsUpTo text.now at S }
    requires fault { IsFaultAfter text.now [] at fault }
    ensures fault { IfOk result (IsFaultOf text.now) }
    ensures comment { IfErr result (IsCommentFaultAfter text.now 0) }
{
    match fault {
        ReadFault::Text(lex) => Err(lex),
        ReadFault::Memory => {
            count_tokens(text, at)?;
            Ok(ReadFault::Memory)
        }
        ReadFault::Shape { token } => {
            let count_after = count_tokens(text, at)?;
            let count_all = count_tokens(text, 0)?;
            Ok(ReadFault::Shape {
                token: count_all - count_after + token,
            })
        }
    }
}
