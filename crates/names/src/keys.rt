//! A 64-bit key for each name: all bytes of a short name, a hash of a longer one.
ghost use Rattle.std.specs.Prelude.{◌≡◌, ◌≢◌, ◌+◌, ◌*◌, ◌^◌, ◌<◌, ◌≤◌, length};
ghost use Rattle.names.specs.Stored.Keys.{AreBytes, digits, key_bytes, eight_bytes_from, scrambled};
ghost use Rattle.names.specs.Stored.Keys.{mixed, key_of};

/// The least length of a name whose key is a hash, which other names may share. A shorter name
/// shares its key with no other.
pub(crate) const LEAST_HASHED_LEN: usize = 8;

/// The least hash. Keys of short names are lower.
const LEAST_HASH: u64 = 0x8000_0000_0000_0000;

/// 2^64 divided by the golden ratio, rounded to an odd number: its bits are spread evenly.
const FACTOR: u64 = 0x9e37_79b9_7f4a_7c15;

/// Stands in the place of a key for a name that is in the overflow. No name has this key.
pub(crate) const IN_OVERFLOW: u64 = 0x7fff_ffff_ffff_ffff;

/// Returns the key of a name.
pub(crate) fn key(name: &[u8]) -> u64
    ensures key { result ≡ key_of name.now }
    ensures bytes { AreBytes name.now }
    ensures not_overflow { result ≢ IN_OVERFLOW }
{
    match name.len() {
        0 => 0,
        1..=7 => short_key(name),
        _ => hash(name),
    }
}

/// Returns the key of a name of one to seven bytes.
pub(crate) fn short_key(name: &[u8]) -> u64
    requires some { 1 ≤ length name.now }
    requires short { length name.now < LEAST_HASHED_LEN }
    ensures key { result ≡ key_of name.now }
    ensures bytes { AreBytes name.now }
    ensures not_overflow { result ≢ IN_OVERFLOW }
{
    let bytes = if name.len() < 4 {
        few_bytes(name)
    } else {
        more_bytes(name)
    };
    bytes * 8 + name.len() as u64
}

/// Returns the first, the middle and the last byte as one number, so that one, two and three bytes
/// are read in the same way.
fn few_bytes(name: &[u8]) -> u64
    requires some { 1 ≤ length name.now }
    requires few { length name.now < 4 }
    ensures digits { result ≡ digits (key_bytes name.now) }
    ensures below { result < 2 ^ 56 }
{
    let len = name.len();
    with_byte(
        name[0],
        with_byte(name[len / 2], with_byte(name[len - 1], 0)),
    )
}

/// Returns the first four bytes and the last three as one number.
fn more_bytes(name: &[u8]) -> u64
    requires some { 4 ≤ length name.now }
    requires few { length name.now < 8 }
    ensures digits { result ≡ digits (key_bytes name.now) }
    ensures below { result < 2 ^ 56 }
{
    let len = name.len();
    let last = with_byte(
        name[len - 3],
        with_byte(name[len - 2], with_byte(name[len - 1], 0)),
    );
    let first = with_byte(name[2], with_byte(name[3], last));
    with_byte(name[0], with_byte(name[1], first))
}

/// Returns the eight bytes from an index on as one number.
fn eight_bytes(name: &[u8], at: usize) -> u64
    requires { at + 8 ≤ length name.now }
    ensures { result ≡ digits (eight_bytes_from name.now at) }
{
    let last = with_byte(
        name[at + 5],
        with_byte(name[at + 6], with_byte(name[at + 7], 0)),
    );
    let middle = with_byte(name[at + 3], with_byte(name[at + 4], last));
    with_byte(
        name[at],
        with_byte(name[at + 1], with_byte(name[at + 2], middle)),
    )
}

/// Returns the number with this lowest byte, followed by the bytes of `above`.
fn with_byte(byte: u8, above: u64) -> u64
    requires { above < 2 ^ 56 }
    ensures { result ≡ byte + 256 * above }
{
    byte as u64 + 256 * above
}

/// Returns the hash of a name of eight bytes or more: of its length and of its bytes, eight at a
/// time. The last eight may overlap the ones before.
pub(crate) fn hash(name: &[u8]) -> u64
    requires { LEAST_HASHED_LEN ≤ length name.now }
    ensures key { result ≡ key_of name.now }
    ensures not_overflow { result ≢ IN_OVERFLOW }
{
    let len = name.len();
    let mut front = len as u64;
    for block in 0..(len - 1) / 8 {
        front = mix(front, eight_bytes(name, 8 * block));
    }
    mix(front, eight_bytes(name, len - 8)) % LEAST_HASH + LEAST_HASH
}

/// Returns the hash with eight more bytes mixed in.
fn mix(hash: u64, bytes: u64) -> u64
    ensures { result ≡ mixed hash bytes }
{
    scramble(hash.wrapping_add(bytes))
}

/// Returns the product of `FACTOR` and this number, modulo 2^64, with its bytes in reverse order.
/// The low bits of the result, which choose a slot, are thus high bits of the product, which depend
/// on most bits of the number.
pub(crate) fn scramble(number: u64) -> u64
    ensures { result ≡ scrambled number }
{
    number.wrapping_mul(FACTOR).swap_bytes()
}
