//! Short texts, stored in the value itself.

ghost use Rattle.std.specs.Prelude.{◌≡◌, ◌≤◌, ◌↔◌, length, take, IsSome, IfSome};
ghost use Rattle.std.specs.Str.{IsUtf8};

use std::str;

/// The most bytes of a `ShortText`.
pub(crate) const MAX_SHORT: usize = 22;

/// At most 22 bytes of UTF-8, stored without the heap.
#[derive(Clone, Copy)]
pub(crate) struct ShortText {
    length: u8,
    bytes: [u8; MAX_SHORT],
    ghost fits: { length ≤ 22 },
    ghost utf8: { ∥ IsUtf8 (take length bytes) ∥₁ },
}

impl ShortText {
    ghost use Rattle.osm_model.specs.Steps.Stored.{short_bytes};

    /// The text with the given characters, if they have at most 22 bytes.
    pub(crate) fn new(text: &str) -> Option<ShortText>
        ensures some { IsSome result ↔ (length text.now ≤ 22) }
        ensures value { IfSome result (λ short. short_bytes short ≡ text.now) }
    {
        if text.len() > MAX_SHORT {
            return None;
        }
        let mut bytes = [0; MAX_SHORT];
        bytes[..text.len()].copy_from_slice(text.as_bytes());
        Some(ShortText {
            length: text.len() as u8,
            bytes,
        })
    }

    // The bytes up to the length.
    fn as_bytes(&self) -> &[u8]
        ensures { result.now ≡ short_bytes self.now }
    {
        &self.bytes[..self.length as usize]
    }

    pub(crate) fn as_str(&self) -> &str
        ensures { result.now ≡ short_bytes self.now }
    {
        unsafe { str::from_utf8_unchecked(self.as_bytes()) }
    }
}
