//! Finds a label in a list.
ghost use Rattle.std.specs.Prelude.{◌≡◌, map};
ghost use Rattle.mm_lex.specs.Alphabet.{name_eq, has_name};

/// Returns whether a label is in a list. It does not allocate.
///
/// Cost: a comparison for each label of the list.
pub fn is_among(label: &[u8], labels: &[&str]) -> bool
    ensures { result ≡ has_name label.now (map (λ label. label.now) labels.now) }
{
    for other in labels {
        if equals_bytes(other, label) {
            return true;
        }
    }
    false
}

/// Returns whether these are the bytes of the text.
fn equals_bytes(text: &str, bytes: &[u8]) -> bool
    ensures { result ≡ name_eq bytes.now text.now }
{
    bytes == text.as_bytes()
}
