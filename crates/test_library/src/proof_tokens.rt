//! The items that proof tokens write, with numbers that the book gives as examples, and tokens that
//! write no items.
use mm_lex::Words;
use mm_read::{Stmt, read};
use proof_code::{CodeFault, Items, is_compressed, normal, packed};
use std::alloc::{AllocError, Global};
use text::push_number;

/// Tokens of proofs, and the numbers of the items that they write where h1 to h130 are the
/// mandatory labels. The number 0 is a mark, one up to the count of labels cites a label, and a
/// greater one recalls a marked result. The labels of a compressed proof are the mandatory ones and
/// then those in its parentheses; the labels of a normal proof are its tokens, one for each, so a
/// label may be there twice.
const NUMBERS: [(&[u8], &[u32]); 4] = [
    (b"( ) TUAYTUUA", &[20, 21, 120, 121]),
    (b"( b ) A BZ U A U B ZC", &[1, 2, 0, 21, 22, 0, 3]),
    (b"( b c.1 ) A BZ UU L ZC UUK", &[1, 2, 0, 132, 0, 3, 131]),
    (b"h1 b h1", &[1, 2, 3]),
];

#[test]
fn items_have_their_numbers(rt: HostRuntime) {
    for (tokens, numbers) in NUMBERS {
        assert!(rt; has_numbers(rt.alloc(), tokens, numbers), "{tokens:?}");
    }
}

/// Returns whether the tokens write items of these numbers.
fn has_numbers(alloc: Global, tokens: &[u8], expected: &[u32]) -> bool {
    match items_of(alloc, tokens) {
        Ok(items) => items.parts().numbers == expected,
        Err(_) => false,
    }
}

/// Tokens of proofs, and why they write no items with the same mandatory labels.
const FAULTS: [(&[u8], CodeFault); 9] = [
    (b"( ) AU", CodeFault::Malformed),
    (b"( ) ZA", CodeFault::Malformed),
    (b"( ) UUK", CodeFault::Malformed),
    (b"( h7 ) A", CodeFault::Malformed),
    (b"( A", CodeFault::Malformed),
    (b"( b ) A U UL", CodeFault::Malformed),
    (b"( ) A?", CodeFault::Unfinished),
    (b"?", CodeFault::Unfinished),
    (b"h1 h+", CodeFault::Malformed),
];

#[test]
fn faults_are_told_apart(rt: HostRuntime) {
    for (tokens, fault) in FAULTS {
        assert!(rt; has_fault(rt.alloc(), tokens, fault), "{tokens:?}");
    }
}

/// The number of a long word of letters exceeds every limit.
#[test]
fn word_of_100_000_letters(rt: HostRuntime) {
    assert!(rt; is_long_word_refused(rt.alloc()));
}

/// Returns whether a compressed proof with a word of 100,000 letters is refused.
fn is_long_word_refused(alloc: Global) -> bool {
    match tokens_with_long_word(alloc) {
        Ok(text) => has_fault(alloc, &text, CodeFault::Malformed),
        Err(_) => false,
    }
}

/// Returns the tokens of a compressed proof whose one word of letters is 99,999 times `U`, and then
/// `A`.
fn tokens_with_long_word(alloc: Global) -> Result<Vec<u8>, AllocError> {
    let mut word = vec![in alloc; b'U'; 99_999]?;
    word.extend_from_slice(b"A")?;
    let mut tokens = Vec::from_slice(alloc, b"( ) ")?;
    tokens.extend_from_slice(&word)?;
    Ok(tokens)
}

/// Returns whether the tokens write no items for this reason.
fn has_fault(alloc: Global, tokens: &[u8], expected: CodeFault) -> bool {
    match items_of(alloc, tokens) {
        Ok(_) => false,
        Err(fault) => fault == expected,
    }
}

/// Returns the items that the tokens write where h1 to h130 are the mandatory labels. `Memory` also
/// stands for tokens that do not read as the proof of a `$p`, which no case has.
fn items_of(alloc: Global, tokens: &[u8]) -> Result<Items, CodeFault> {
    let Ok(text) = text_of(alloc, tokens) else {
        return Err(CodeFault::Memory);
    };
    match read(alloc, text.as_slice()) {
        Ok(statements) => match statements.as_slice() {
            [Stmt::Const(labels), Stmt::Prove { proof, .. }] => items_with_labels(
                alloc, labels, proof,
            ),
            _ => Err(CodeFault::Memory),
        },
        Err(_) => Err(CodeFault::Memory),
    }
}

/// Returns the items that the tokens, of a compressed or a normal proof, write with these mandatory
/// labels.
fn items_with_labels(alloc: Global, mandatory: &Words, tokens: &Words) -> Result<Items, CodeFault> {
    if is_compressed(tokens) {
        packed(alloc, tokens, mandatory)
    } else {
        normal(alloc, tokens)
    }
}

/// Returns a text of two statements: a `$c` of the labels h1 to h130, and a `$p` with the tokens as
/// its proof.
fn text_of(alloc: Global, tokens: &[u8]) -> Result<Vec<u8>, AllocError> {
    let mut text = Vec::new(alloc);
    push_text(&mut text, tokens)?;
    Ok(text)
}

/// Appends these two statements.
fn push_text(text: &mut Vec<u8>, tokens: &[u8]) -> Result<(), AllocError> {
    text.extend_from_slice(b"$c")?;
    for number in 1..131u64 {
        push_label(text, number)?;
    }
    text.extend_from_slice(b" $. p $p a $= ")?;
    text.extend_from_slice(tokens)?;
    text.extend_from_slice(b" $.")
}

/// Appends the label with this number.
fn push_label(text: &mut Vec<u8>, number: u64) -> Result<(), AllocError> {
    text.extend_from_slice(b" h")?;
    push_number(text, number)
}
