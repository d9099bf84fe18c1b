//! Reads a text in parts: a large text is cut in two, each half again, and so on, and threads read
//! the parts.
ghost use Rattle.std.specs.Prelude.{◌≡◌, ℕ, ◌⊎◌, ◌++◌, IfOk, IfErr, IfSome, IsErrAnd, MatchResult};
ghost use Rattle.std.specs.Thread.{IsSync};
ghost use Rattle.mm_lex.specs.TextFaults.{IsFirstBadByte, IsCommentFault};
ghost use Rattle.mm_read.specs.Statements.{Database};
ghost use Rattle.mm_read.specs.Reads.{Reads, HasShapeFault, IsReadFault};
ghost use Rattle.read_pool.specs.Concatenation.{IsConcatenation};

use crate::cut::{MIN_AVERAGE_PART_BYTES, cut_near};
use mm_lex::LexFault;
use mm_read::{ReadFault, Stmt, read};
use std::alloc::Global;
use std::thread::{Threads, join};

/// Returns the statements that the text reads as, like `mm_read::read`, but reads on up to
/// `workers` threads.
///
/// A text of two MiB or more is cut into at most `workers` parts, of a MiB or more on average; each
/// cut is where a statement seems to end. If a part does not read as statements, or an allocation
/// fails, the calling thread reads the whole text. So no answer but `Memory` depends on the number
/// of workers or on the cuts.
///
/// Errors: those of `read`. Cost: the size of the text, divided among the workers; if a part does
/// not read as statements (because the text does not, or a cut is in a comment), that of `read` as
/// well.
pub fn read_in_parts<R: Threads + Sync>(
    rt: &R,
    alloc: Global,
    text: &[u8],
    workers: usize,
) -> Result<Vec<Stmt>, ReadFault>
    ensures found { IfOk result (λ statements. Reads text.now statements.items) }
    ensures fault { IfErr result (IsReadFault text.now) }

    // The statements are those that the text reads as, or an allocation failed.
    ensures statements { (S : Database) → Reads text.now S
        → MatchResult result (λ statements. statements.items ≡ S) (λ fault. fault ≡ ReadFault.Memory) }

    // A fault of bytes or comments is returned even if every allocation fails.
    ensures text_fault { (offset : ℕ) → IsFirstBadByte text.now offset
        → result ≡ Err (ReadFault.Text (LexFault.Text offset)) }
    ensures comment_fault { (offset : ℕ) → IsCommentFault text.now offset
        → result ≡ Err (ReadFault.Text (LexFault.Comment offset)) }
    ensures shape { (token : ℕ) → HasShapeFault text.now token
        → IsErrAnd result (λ fault. (fault ≡ ReadFault.Shape token) ⊎ (fault ≡ ReadFault.Memory)) }
{
    let parts = workers.min(text.len() / MIN_AVERAGE_PART_BYTES);
    if parts > 1 {
        if let Some(statements) = read_parts(rt, alloc, text, parts) {
            return Ok(statements);
        }
    }
    read(alloc, text)
}

/// Returns the statements that the text reads as, read in `parts` parts, or `None` if a part does
/// not read as statements or an allocation fails.
#[cycle(parts)]
fn read_parts<R: Threads + Sync>(
    rt: &R,
    alloc: Global,
    text: &[u8],
    parts: usize,
) -> Option<Vec<Stmt>>
    ensures { IfSome result (λ statements. Reads text.now statements.items) }
{
    if parts < 2 {
        return read(alloc, text).ok();
    }
    let front_parts = parts / 2;
    let back_parts = parts - front_parts;
    let (front, back) = text.split_at(cut_near(text, text.len() / parts * front_parts));
    let first = move || -> Option<Vec<Stmt>>
        requires { IsSync R.row }
        ensures { IfSome result (λ statements. Reads front.entry.now statements.items) }
    { read_parts(rt, alloc, front, front_parts) };
    let second = move || -> Option<Vec<Stmt>>
        requires { IsSync R.row }
        ensures { IfSome result (λ statements. Reads back.entry.now statements.items) }
    { read_parts(rt, alloc, back, back_parts) };
    let (first, second) = join(rt, first, second);
    concatenate(first, second)
}

/// Returns the statements of the first list followed by those of the second, or `None` if a list is
/// `None` or the allocation fails.
fn concatenate(first: Option<Vec<Stmt>>, second: Option<Vec<Stmt>>) -> Option<Vec<Stmt>>
    ensures { IfSome result (λ statements. IsConcatenation first second statements.items) }
{
    let mut statements = first?;
    let mut more = second?;
    statements.append(&mut more).ok()?;
    Some(statements)
}
