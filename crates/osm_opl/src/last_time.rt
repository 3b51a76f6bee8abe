//! The time that was read last. Objects that were uploaded together often have the same time, which
//! then isn't read again for each object.

ghost use Rattle.std.specs.Prelude.{◌≡◌, IsTrue};

use crate::after_time::{TIME_SIZE, TimeReader, after_time};
use osm_model::time::time_write;
use std::marker::Model;

/// The last time, and how it is spelled.
#[derive(Drop)]
pub struct LastTime {
    text: [u8; TIME_SIZE],
    time: u32,
}

impl Model for LastTime {
    ghost use Rattle.std.specs.Prelude.{◌≡◌, ℕ};
    ghost use Rattle.osm_model.specs.CivilTime.{time_text};
    ghost use Rattle.osm_model.specs.Limits.{IsPositive};

    ghost Value = { ℕ };

    ghost view = { λ a. a.time };

    ghost invariant = { λ a. IsPositive a.time × (a.text ≡ time_text a.time) };
}

impl LastTime {
    /// Begins as if the time 1970-01-01T00:00:01Z had been read last.
    pub fn new() -> LastTime
        ensures { result ≡ 1 }
    {
        LastTime {
            text: time_write(1),
            time: 1,
        }
    }
}

impl TimeReader for LastTime {
    #[inline(always)]
    fn after<'a>(&mut self, bytes: &'a [u8]) -> Option<(u32, &'a [u8])> {
        let text = bytes.first_chunk::<TIME_SIZE>()?;
        if is_same(text, &self.text) {
            return Some((self.time, &bytes[TIME_SIZE..]));
        }
        let (time, rest) = after_time(bytes)?;
        *self = LastTime { text: *text, time };
        Some((time, rest))
    }
}

// Whether two times are spelled the same, compared by words.
#[inline(always)]
fn is_same(text: &[u8; TIME_SIZE], other: &[u8; TIME_SIZE]) -> bool
    ensures { IsTrue result → text.now ≡ other.now }
{
    let (Some(date), Some(other_date)) = (text.first_chunk::<16>(), other.first_chunk::<16>())
    else {
        return false;
    };
    let (Some(end), Some(other_end)) = (text.last_chunk::<4>(), other.last_chunk::<4>()) else {
        return false;
    };
    is_same_date(date, other_date) && is_same_end(end, other_end)
}

// `YYYY-MM-DDTHH:MM`
#[inline(always)]
fn is_same_date(date: &[u8; 16], other: &[u8; 16]) -> bool
    ensures { IsTrue result → date.now ≡ other.now }
{
    let (Some(first), Some(other_first)) = (date.first_chunk::<8>(), other.first_chunk::<8>())
    else {
        return false;
    };
    let (Some(last), Some(other_last)) = (date.last_chunk::<8>(), other.last_chunk::<8>()) else {
        return false;
    };
    is_same_word(first, other_first) && is_same_word(last, other_last)
}

#[inline(always)]
fn is_same_word(word: &[u8; 8], other: &[u8; 8]) -> bool
    ensures { IsTrue result → word.now ≡ other.now }
{
    u64::from_le_bytes(*word) == u64::from_le_bytes(*other)
}

// `:SSZ`
#[inline(always)]
fn is_same_end(end: &[u8; 4], other: &[u8; 4]) -> bool
    ensures { IsTrue result → end.now ≡ other.now }
{
    u32::from_le_bytes(*end) == u32::from_le_bytes(*other)
}
