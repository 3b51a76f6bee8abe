//! Whole numbers: ids, versions, changesets and user ids.

ghost use Rattle.std.specs.Prelude.{◌≡◌, ◌<◌, ◌≤◌, ◌-◌, ◌^◌, min, option_map};
ghost use Rattle.std.specs.Prelude.{length, IfOk};
ghost use Rattle.osm_model.specs.Limits.{IsId};
ghost use Rattle.osm_reading.specs.Answers.{Finds};
ghost use Rattle.osm_opl.specs.Reading.{digits_at, id_at, number_at, positive_at};

use osm_model::form::Why;
use osm_model::limits::MAX_ID;

// The most digits that a number may have.
const MOST_DIGITS: usize = 20;

// Every number of this many digits fits in 64 bits.
const FITTING_DIGITS: usize = 19;

/// The value of 1 to `most` decimal digits, or `u64::MAX` if it is greater than that.
pub(crate) fn read_digits(bytes: &[u8], most: usize) -> Result<u64, Why>
    ensures { Finds (λ n. n) result (option_map (min (2 ^ 64 - 1)) (digits_at 10 most bytes.now)) }
{
    if bytes.is_empty() || bytes.len() > most {
        return Err(Why::BadNumber);
    }
    if bytes.len() <= FITTING_DIGITS {
        read_few_digits(bytes)
    } else {
        read_many_digits(bytes)
    }
}

// Few enough digits that their value fits in 64 bits.
fn read_few_digits(bytes: &[u8]) -> Result<u64, Why>
    requires { (1 ≤ length bytes.now) × (length bytes.now ≤ 19) }
    ensures { Finds (λ n. n) result
        (option_map (min (2 ^ 64 - 1)) (digits_at 10 (length bytes.now) bytes.now)) }
{
    let mut number: u64 = 0;
    for byte in bytes {
        if !byte.is_ascii_digit() {
            return Err(Why::BadNumber);
        }
        number = 10 * number + (*byte - b'0') as u64;
    }
    Ok(number)
}

fn read_many_digits(bytes: &[u8]) -> Result<u64, Why>
    requires { 1 ≤ length bytes.now }
    ensures { Finds (λ n. n) result
        (option_map (min (2 ^ 64 - 1)) (digits_at 10 (length bytes.now) bytes.now)) }
{
    let mut number: u64 = 0;
    for byte in bytes {
        if !byte.is_ascii_digit() {
            return Err(Why::BadNumber);
        }
        number = number
            .saturating_mul(10)
            .saturating_add((*byte - b'0') as u64);
    }
    Ok(number)
}

#[tactic(auto, unfolding(crate::specs::Reading::number_at))]
fn read_number(bytes: &[u8], most: u64) -> Result<u64, Why>
    requires { most < 2 ^ 64 - 1 }
    ensures value { Finds (λ n. n) result (number_at most bytes.now) }
    ensures limit { IfOk result (λ n. n ≤ most) }
{
    let number = read_digits(bytes, MOST_DIGITS)?;
    if number > most {
        return Err(Why::OutOfRange);
    }
    Ok(number)
}

/// A version, a changeset or a user id: 1 to 4,294,967,295.
#[tactic(auto, unfolding(crate::specs::Reading::positive_at))]
pub(crate) fn read_positive(bytes: &[u8]) -> Result<u32, Why>
    ensures value { Finds (λ n. n) result (positive_at bytes.now) }
    ensures limit { IfOk result (λ n. 0 < n) }
{
    if bytes.is_empty() {
        return Err(Why::NoMetadata);
    }
    let number = read_number(bytes, u32::MAX as u64)?;
    if number == 0 {
        return Err(Why::NoMetadata);
    }
    Ok(number as u32)
}

/// An id or a reference, with a leading `-` if it is negative.
#[tactic(auto, unfolding(crate::specs::Reading::id_at))]
pub(crate) fn read_id(bytes: &[u8]) -> Result<i64, Why>
    ensures value { Finds (λ z. z) result (id_at bytes.now) }
    ensures limit { IfOk result (λ z. IsId z) }
{
    let Some((first, digits)) = bytes.split_first() else {
        return Err(Why::BadNumber);
    };
    if *first == b'-' {
        let size = read_number(digits, MAX_ID as u64)?;
        return Ok(-(size as i64));
    }
    let size = read_number(bytes, MAX_ID as u64)?;
    Ok(size as i64)
}
