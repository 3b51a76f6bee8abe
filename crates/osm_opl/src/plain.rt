//! Numbers as nearly all lines spell them: 1 to 19 digits, and then a separator or the end. These
//! are read in one pass; any other spelling is left to the readers of whole fields.

ghost use Rattle.std.specs.Prelude.{◌≡◌, ◌≤◌, ◌<◌, length, take, true, IfSome};
ghost use Rattle.std.specs.Char.{digit_value};
ghost use Rattle.std.specs.Str.Parse.{digits_value};
ghost use Rattle.osm_model.specs.Limits.{IsId};
ghost use Rattle.osm_opl.specs.Steps.Plain.{IdFirst, NumberFirst};
ghost use Rattle.osm_opl.specs.Reading.{all_digits};
ghost use Rattle.osm_reading.specs.Pieces.{pieces_after};

use osm_model::limits::MAX_ID;

// Every number of this many digits fits in 64 bits.
const FITTING_DIGITS: usize = 19;

/// The value of the digits before the first separator, and what follows the separator. None if
/// there are no digits, more than 19 of them, or another byte among them.
pub(crate) fn leading_number(bytes: &[u8], separator: u8) -> Option<(u64, Option<&[u8]>)>
    requires { 10 ≤ digit_value separator }
    ensures value { IfSome result (λ r.
        NumberFirst separator bytes.now r.0 (pieces_after separator r.1)) }
    ensures shorter { IfSome result (λ r.
        IfSome r.1 (λ rest. length rest.now < length bytes.now)) }
{
    let (number, count) = leading_digits(bytes);
    if count == 0 {
        return None;
    }
    if count == bytes.len() {
        return Some((number, None));
    }
    if bytes[count] != separator {
        return None;
    }
    Some((number, Some(&bytes[count + 1..])))
}

/// The value of the leading digits, at most 19 digits, and the number of these digits.
#[inline(always)]
pub(crate) fn leading_digits(bytes: &[u8]) -> (u64, usize)
    ensures digits { all_digits 10 (take result.1 bytes.now) ≡ true }
    ensures value { result.0 ≡ digits_value 10 (take result.1 bytes.now) }
    ensures few { (result.1 ≤ 19) × (result.1 ≤ length bytes.now) }
{
    let most = bytes.len().min(FITTING_DIGITS);
    let mut number: u64 = 0;
    let mut count = 0;
    while count < most {
        let byte = bytes[count];
        if !byte.is_ascii_digit() {
            return (number, count);
        }
        number = 10 * number + (byte - b'0') as u64;
        count += 1;
    }
    (number, count)
}

/// The same for an id without a sign.
pub(crate) fn leading_id(bytes: &[u8], separator: u8) -> Option<(i64, Option<&[u8]>)>
    requires { 10 ≤ digit_value separator }
    ensures value { IfSome result (λ r.
        IdFirst separator bytes.now r.0 (pieces_after separator r.1)) }
    ensures limit { IfSome result (λ r. IsId r.0) }
    ensures shorter { IfSome result (λ r.
        IfSome r.1 (λ rest. length rest.now < length bytes.now)) }
{
    let (number, rest) = leading_number(bytes, separator)?;
    if number > MAX_ID as u64 {
        return None;
    }
    Some((number as i64, rest))
}
