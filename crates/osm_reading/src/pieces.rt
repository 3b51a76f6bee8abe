//! Cuts a text into pieces at a separator byte, as for lines, fields and items.

ghost use Rattle.std.specs.Prelude.{◌≡◌, ◌∷◌, ◌<◌, length, IfSome, MatchOption, Some, None};
ghost use Rattle.osm_reading.specs.Pieces.{cut_at, pieces, pieces_after};

use memchr::memchr;

/// Cuts a text at its first separator: the bytes before the separator, and the bytes after it.
/// Without a separator the first part is the whole text, and there is no second part.
pub fn cut(bytes: &[u8], separator: u8) -> (&[u8], Option<&[u8]>)
    ensures first { MatchOption result.1
        ((cut_at separator bytes.now ≡ None) × (result.0.now ≡ bytes.now))
        (λ rest. cut_at separator bytes.now ≡ Some (result.0.now, rest.now)) }
    ensures pieces { pieces separator bytes.now
        ≡ result.0.now ∷ pieces_after separator result.1 }
    ensures shorter { IfSome result.1 (λ rest. length rest.now < length bytes.now) }
{
    match memchr(separator, bytes) {
        Some(at) => (&bytes[..at], Some(&bytes[at + 1..])),
        None => (bytes, None),
    }
}

/// Does the same as `cut` for a separator that is near, as after a key: looks for it byte by byte.
#[inline(always)]
pub fn cut_near(bytes: &[u8], separator: u8) -> (&[u8], Option<&[u8]>)
    ensures first { MatchOption result.1
        ((cut_at separator bytes.now ≡ None) × (result.0.now ≡ bytes.now))
        (λ rest. cut_at separator bytes.now ≡ Some (result.0.now, rest.now)) }
    ensures shorter { IfSome result.1 (λ rest. length rest.now < length bytes.now) }
{
    let mut at = 0;
    while at < bytes.len() {
        if bytes[at] == separator {
            return (&bytes[..at], Some(&bytes[at + 1..]));
        }
        at += 1;
    }
    (bytes, None)
}
