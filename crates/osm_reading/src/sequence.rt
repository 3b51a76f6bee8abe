//! Sequence numbers as texts.

ghost use Rattle.std.specs.Prelude.{◌≡◌, ℕ, ◌≤◌, IfSome, Some};
ghost use Rattle.osm_model.specs.Limits.{max_sequence};
ghost use Rattle.osm_reading.specs.Sequence.{SpellsSequence};

/// The value of 1 to 9 decimal digits, with or without leading zeros; None for any other text.
pub fn sequence_read(digits: &[u8]) -> Option<u32>
    ensures found { IfSome result (λ n. SpellsSequence digits.now n) }
    ensures limit { IfSome result (λ n. n ≤ max_sequence) }
    ensures only { (n : ℕ) → SpellsSequence digits.now n → result ≡ Some n }
{
    if digits.is_empty() || 9 < digits.len() {
        return None;
    }
    let mut number = 0;
    for byte in digits {
        if !byte.is_ascii_digit() {
            return None;
        }
        number = 10 * number + (*byte - b'0') as u32;
    }
    Some(number)
}
