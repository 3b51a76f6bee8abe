//! Whether two strings have the same bytes, compared a word at a time.
//!
//! A search nearly always finds a string of 5 to 30 bytes that is equal to the wanted one. The `==`
//! of slices, which compares runs of bytes, would be the slowest part of a search.

ghost use Rattle.std.specs.Prelude.{◌≡◌, ◌↔◌, ◌<◌, length, IsTrue};

/// Whether the bytes are the same.
pub fn are_same(bytes: &[u8], other: &[u8]) -> bool
    ensures { IsTrue result ↔ (bytes.now ≡ other.now) }
{
    if bytes.len() != other.len() {
        return false;
    }
    let (Some(last), Some(other_last)) = (bytes.last_chunk::<8>(), other.last_chunk::<8>()) else {
        return are_same_short(bytes, other);
    };
    let (words, _rest) = bytes.as_chunks::<8>();
    let (other_words, _other_rest) = other.as_chunks::<8>();
    are_same_words(words, other_words) && is_same_word(last, other_last)
}

// The same of fewer than eight bytes: the first four and the last four leave none out.
fn are_same_short(bytes: &[u8], other: &[u8]) -> bool
    requires size { length bytes.now ≡ length other.now }
    requires short { length bytes.now < 8 }
    ensures { IsTrue result ↔ (bytes.now ≡ other.now) }
{
    let (Some(first), Some(other_first)) = (bytes.first_chunk::<4>(), other.first_chunk::<4>())
    else {
        return bytes == other;
    };
    let (Some(last), Some(other_last)) = (bytes.last_chunk::<4>(), other.last_chunk::<4>()) else {
        return bytes == other;
    };
    is_same_half(first, other_first) && is_same_half(last, other_last)
}

fn are_same_words(words: &[[u8; 8]], others: &[[u8; 8]]) -> bool
    ensures { IsTrue result ↔ (words.now ≡ others.now) }
{
    if words.len() != others.len() {
        return false;
    }
    for index in 0..words.len() {
        if !is_same_word(&words[index], &others[index]) {
            return false;
        }
    }
    true
}

fn is_same_word(word: &[u8; 8], other: &[u8; 8]) -> bool
    ensures { IsTrue result ↔ (word.now ≡ other.now) }
{
    u64::from_le_bytes(*word) == u64::from_le_bytes(*other)
}

fn is_same_half(half: &[u8; 4], other: &[u8; 4]) -> bool
    ensures { IsTrue result ↔ (half.now ≡ other.now) }
{
    u32::from_le_bytes(*half) == u32::from_le_bytes(*other)
}
