//! Numbers in plain decimal: no sign, and no leading zeros.

ghost use Rattle.std.specs.Prelude.{◌≡◌};
ghost use Rattle.osm_opl.specs.Reading.{digits_at};
ghost use Rattle.osm_save.specs.Reading.{number_at};

use itoa::Buffer;

/// The most digits of a number.
pub const MOST_DIGITS: usize = 18;

/// Reads a number of at most 18 digits in plain decimal.
#[tactic(auto, unfolding(crate::specs::Reading::number_at))]
pub fn read_number(text: &[u8]) -> Option<u64>
    ensures { result ≡ number_at text.now }
{
    let number = read_digits(text)?;
    if Buffer::new().format(number).as_bytes() != text {
        return None;
    }
    Some(number)
}

// The number with these 1 to 18 digits. Accepts leading zeros.
fn read_digits(digits: &[u8]) -> Option<u64>
    ensures { result ≡ digits_at 10 18 digits.now }
{
    if digits.is_empty() || digits.len() > MOST_DIGITS {
        return None;
    }
    let mut number = 0;
    for byte in digits {
        if !byte.is_ascii_digit() {
            return None;
        }
        number = 10 * number + (*byte - b'0') as u64;
    }
    Some(number)
}
