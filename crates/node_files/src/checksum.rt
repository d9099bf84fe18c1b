//! The checksum of the text files of a store.

/// The offset basis of FNV-1a with 64 bits.
const BASIS: u64 = 0xcbf2_9ce4_8422_2325;

/// The prime of FNV-1a with 64 bits.
const PRIME: u64 = 0x0000_0100_0000_01b3;

/// Returns the checksum FNV-1a of a text, by which damage of one byte is always told.
///
/// Source: Fowler, Noll and Vo, the hash FNV-1a. Cost: the text, once.
pub(crate) fn checksum(text: &[u8]) -> u64 {
    let mut sum = BASIS;
    for byte in text {
        sum = (sum ^ u64::from(*byte)).wrapping_mul(PRIME);
    }
    sum
}
