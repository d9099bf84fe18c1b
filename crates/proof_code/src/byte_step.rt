//! The table by which the letters of a compressed proof are read: how each byte changes the value
//! of the digits before it.
//!
//! The letters U to Y are the digits 1 to 5 of a number, A to T the digits 1 to 20 that end it, and
//! Z is a mark. The table has a step for every byte, so that none needs a test.

/// How a byte changes the value of the digits before it. The value with the byte is that value
/// times `factor`, modulo 2^64, plus `added`.
#[derive(Clone, Copy)]
pub(crate) struct ByteStep {
    /// The factor of the value before the byte. For a mark it is -1, modulo 2^64, so that the value
    /// of a mark after digits is over every limit.
    pub(crate) factor: usize,
    /// The number that is added.
    pub(crate) added: usize,
    /// A mask that keeps the value as the digits before the next byte, or clears it.
    pub(crate) mask: usize,
    /// How many numbers the byte ends: 0 or 1, and 1 for a mark.
    pub(crate) ends: usize,
    /// How many marks the byte is: 0 or 1.
    pub(crate) marks: usize,
    /// Makes a step 64 bytes long, so that the place of a step is found by one shift.
    pub(crate) unused: [usize; 3],
}

/// All bits.
const ALL_BITS: usize = usize::MAX;

/// The step of a byte that is neither a letter nor a space: its value is over every limit.
const INVALID: ByteStep = ByteStep {
    factor: 0,
    added: ALL_BITS,
    mask: ALL_BITS,
    ends: 0,
    marks: 0,
    unused: [0; 3],
};

/// The step of a space, which keeps the digits.
const SPACE: ByteStep = ByteStep {
    factor: 1,
    added: 0,
    mask: ALL_BITS,
    ends: 0,
    marks: 0,
    unused: [0; 3],
};

/// The step of `A`, the first of the letters that end a number. The steps of `B` to `T` are the
/// same but for `added`.
const A: ByteStep = ByteStep {
    factor: 20,
    added: 1,
    mask: 0,
    ends: 1,
    marks: 0,
    unused: [0; 3],
};

const B: ByteStep = ByteStep { added: 2, ..A };

const C: ByteStep = ByteStep { added: 3, ..A };

const D: ByteStep = ByteStep { added: 4, ..A };

const E: ByteStep = ByteStep { added: 5, ..A };

const F: ByteStep = ByteStep { added: 6, ..A };

const G: ByteStep = ByteStep { added: 7, ..A };

const H: ByteStep = ByteStep { added: 8, ..A };

const I: ByteStep = ByteStep { added: 9, ..A };

const J: ByteStep = ByteStep { added: 10, ..A };

const K: ByteStep = ByteStep { added: 11, ..A };

const L: ByteStep = ByteStep { added: 12, ..A };

const M: ByteStep = ByteStep { added: 13, ..A };

const N: ByteStep = ByteStep { added: 14, ..A };

const O: ByteStep = ByteStep { added: 15, ..A };

const P: ByteStep = ByteStep { added: 16, ..A };

const Q: ByteStep = ByteStep { added: 17, ..A };

const R: ByteStep = ByteStep { added: 18, ..A };

const S: ByteStep = ByteStep { added: 19, ..A };

const T: ByteStep = ByteStep { added: 20, ..A };

/// The step of `U`, the first of the letters that precede the one that ends a number. The steps of
/// `V` to `Y` are the same but for `added`.
const U: ByteStep = ByteStep {
    factor: 5,
    added: 1,
    mask: ALL_BITS,
    ends: 0,
    marks: 0,
    unused: [0; 3],
};

const V: ByteStep = ByteStep { added: 2, ..U };

const W: ByteStep = ByteStep { added: 3, ..U };

const X: ByteStep = ByteStep { added: 4, ..U };

const Y: ByteStep = ByteStep { added: 5, ..U };

/// The step of `Z`, the mark.
const Z: ByteStep = ByteStep {
    factor: ALL_BITS,
    added: 0,
    mask: 0,
    ends: 1,
    marks: 1,
    unused: [0; 3],
};

/// The step of each byte. It is a `static`, since a constant would be copied wherever it is used.
pub(crate) static STEPS: [ByteStep; 256] = [
    INVALID, INVALID, INVALID, INVALID, INVALID, INVALID, INVALID, INVALID, INVALID, INVALID,
    INVALID, INVALID, INVALID, INVALID, INVALID, INVALID, INVALID, INVALID, INVALID, INVALID,
    INVALID, INVALID, INVALID, INVALID, INVALID, INVALID, INVALID, INVALID, INVALID, INVALID,
    INVALID, INVALID, SPACE, INVALID, INVALID, INVALID, INVALID, INVALID, INVALID, INVALID,
    INVALID, INVALID, INVALID, INVALID, INVALID, INVALID, INVALID, INVALID, INVALID, INVALID,
    INVALID, INVALID, INVALID, INVALID, INVALID, INVALID, INVALID, INVALID, INVALID, INVALID,
    INVALID, INVALID, INVALID, INVALID, INVALID, A, B, C, D, E, F, G, H, I, J, K, L, M, N, O, P, Q,
    R, S, T, U, V, W, X, Y, Z, INVALID, INVALID, INVALID, INVALID, INVALID, INVALID, INVALID,
    INVALID, INVALID, INVALID, INVALID, INVALID, INVALID, INVALID, INVALID, INVALID, INVALID,
    INVALID, INVALID, INVALID, INVALID, INVALID, INVALID, INVALID, INVALID, INVALID, INVALID,
    INVALID, INVALID, INVALID, INVALID, INVALID, INVALID, INVALID, INVALID, INVALID, INVALID,
    INVALID, INVALID, INVALID, INVALID, INVALID, INVALID, INVALID, INVALID, INVALID, INVALID,
    INVALID, INVALID, INVALID, INVALID, INVALID, INVALID, INVALID, INVALID, INVALID, INVALID,
    INVALID, INVALID, INVALID, INVALID, INVALID, INVALID, INVALID, INVALID, INVALID, INVALID,
    INVALID, INVALID, INVALID, INVALID, INVALID, INVALID, INVALID, INVALID, INVALID, INVALID,
    INVALID, INVALID, INVALID, INVALID, INVALID, INVALID, INVALID, INVALID, INVALID, INVALID,
    INVALID, INVALID, INVALID, INVALID, INVALID, INVALID, INVALID, INVALID, INVALID, INVALID,
    INVALID, INVALID, INVALID, INVALID, INVALID, INVALID, INVALID, INVALID, INVALID, INVALID,
    INVALID, INVALID, INVALID, INVALID, INVALID, INVALID, INVALID, INVALID, INVALID, INVALID,
    INVALID, INVALID, INVALID, INVALID, INVALID, INVALID, INVALID, INVALID, INVALID, INVALID,
    INVALID, INVALID, INVALID, INVALID, INVALID, INVALID, INVALID, INVALID, INVALID, INVALID,
    INVALID, INVALID, INVALID, INVALID, INVALID, INVALID, INVALID, INVALID, INVALID, INVALID,
    INVALID, INVALID, INVALID, INVALID, INVALID, INVALID, INVALID, INVALID, INVALID, INVALID,
    INVALID, INVALID, INVALID, INVALID, INVALID, INVALID, INVALID, INVALID,
];
