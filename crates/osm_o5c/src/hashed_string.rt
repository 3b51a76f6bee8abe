//! A string in line with its hash, and the bucket that the hash gives it.

ghost use Rattle.std.specs.Prelude.{◌≡◌, ◌<◌, ◌/◌};
ghost use Rattle.osm_o5c.specs.Steps.Index.{bucket_of, mixed, words_hash, bytes_hash, short_hash};
ghost use Rattle.osm_o5c.specs.Steps.Index.{polynomial_of, hash_of};

use std::marker::Model;

/// The number of buckets.
pub const BUCKETS: usize = 32_768;

/// The in-line bytes of a string, and their hash.
#[derive(Drop)]
pub struct HashedString<'a> {
    bytes: &'a [u8],
    hash: u32,
}

impl<'a> Model for HashedString<'a> {
    ghost use Rattle.std.specs.Prelude.{ℕ, List, ◌≡◌};
    ghost use Rattle.osm_o5c.specs.Steps.Index.{hash_of};

    ghost Value = { List ℕ };

    ghost view = { λ a. a.bytes.now };

    ghost invariant = { λ a. a.hash ≡ hash_of a.bytes.now };
}

impl<'a> HashedString<'a> {
    pub fn new(bytes: &'a [u8]) -> HashedString<'a>
        ensures { result ≡ bytes.now }
    {
        HashedString {
            bytes,
            hash: hash(bytes),
        }
    }

    pub fn as_slice(&self) -> &'a [u8]
        ensures { result.now ≡ self.now }
    {
        self.bytes
    }

    pub fn hash(&self) -> u32
        ensures { result ≡ hash_of self.now }
    {
        self.hash
    }

    #[tactic(auto, unfolding(crate::specs::Steps::Index::bucket_of))]
    pub fn bucket(&self) -> usize
        ensures value { result ≡ bucket_of self.now }
        ensures bound { result < 32768 }
    {
        bucket_for(self.hash)
    }
}

/// The factor of the polynomial, an odd prime.
const FACTOR: u64 = 1_099_511_628_211;

/// An odd number near 2^64 divided by the golden ratio, which spreads a hash over its high bits.
const SPREAD: u64 = 11_400_714_819_323_198_485;

/// 2^32: the high 32 bits of a product are the hash.
const LOW_BITS: u64 = 4_294_967_296;

/// 2^17: the high 15 bits of a hash give its bucket.
const HASHES_OF_BUCKET: u32 = 131_072;

// One step of the polynomial, modulo 2^64.
fn mix(hash: u64, number: u64) -> u64
    ensures { result ≡ mixed hash number }
{
    hash.wrapping_mul(FACTOR).wrapping_add(number)
}

fn hash_words(words: &[[u8; 8]]) -> u64
    ensures { result ≡ words_hash 0 words.now }
{
    let mut hash = 0;
    for word in words {
        hash = mix(hash, u64::from_le_bytes(*word));
    }
    hash
}

fn hash_bytes(bytes: &[u8]) -> u64
    ensures { result ≡ bytes_hash 0 bytes.now }
{
    let mut hash = 0;
    for byte in bytes {
        hash = mix(hash, *byte as u64);
    }
    hash
}

fn hash_short(text: &[u8]) -> u64
    ensures { result ≡ short_hash text.now }
{
    let (Some(first), Some(last)) = (text.first_chunk::<4>(), text.last_chunk::<4>()) else {
        return hash_bytes(text);
    };
    mix(
        u32::from_le_bytes(*first) as u64,
        u32::from_le_bytes(*last) as u64,
    )
}

// A polynomial in the whole words of the string and then in its last eight bytes, so that no byte
// is left out.
#[tactic(auto, unfolding(crate::specs::Steps::Index::polynomial_of))]
fn polynomial(text: &[u8]) -> u64
    ensures { result ≡ polynomial_of text.now }
{
    let Some(last) = text.last_chunk::<8>() else {
        return hash_short(text);
    };
    let (words, _rest) = text.as_chunks::<8>();
    mix(hash_words(words), u64::from_le_bytes(*last))
}

#[tactic(auto, unfolding(crate::specs::Steps::Index::hash_of))]
fn hash(text: &[u8]) -> u32
    ensures { result ≡ hash_of text.now }
{
    (polynomial(text).wrapping_mul(SPREAD) / LOW_BITS) as u32
}

/// The bucket of the strings with this hash.
pub fn bucket_for(hash: u32) -> usize
    ensures value { result ≡ hash / 131072 }
    ensures bound { result < 32768 }
{
    (hash / HASHES_OF_BUCKET) as usize
}
